// The lines of one operation, one for each choice of its operands, the last changing fastest.

use crate::values::{AMOUNTS, CONSTANTS, FIELDS, LISTS, REGISTERS, SUMS, TRUTHS, WORDS};
use crate::write::Item::{Truth, Word};
use crate::write::line;
use product::Long;
use saturate::Saturated;
use shift::Shifted;
use sum::Sum;

pub fn sums<F: Fn(u32, u32, bool) -> Sum>(out: &impl Print, name: &[u8], f: F)
    requires { F.IsAlwaysCallable f }
{
    for x in WORDS {
        for y in WORDS {
            for carry in TRUTHS {
                let sum = f(x, y, carry);
                let results = [Word(sum.value), Truth(sum.carry), Truth(sum.overflow)];
                line(out, name, &[Word(x), Word(y), Truth(carry)], &results);
            }
        }
    }
}

pub fn words<F: Fn(u32) -> u32>(out: &impl Print, name: &[u8], f: F)
    requires { F.IsAlwaysCallable f }
{
    for x in WORDS {
        line(out, name, &[Word(x)], &[Word(f(x))]);
    }
}

pub fn pairs<F: Fn(u32, u32) -> u32>(out: &impl Print, name: &[u8], seconds: &[u32], f: F)
    requires { F.IsAlwaysCallable f }
{
    for x in WORDS {
        for y in seconds {
            line(out, name, &[Word(x), Word(*y)], &[Word(f(x, *y))]);
        }
    }
}

pub fn triples<F: Fn(u32, u32, u32) -> u32>(out: &impl Print, name: &[u8], f: F)
    requires { F.IsAlwaysCallable f }
{
    for x in WORDS {
        for y in WORDS {
            for a in WORDS {
                line(out, name, &[Word(x), Word(y), Word(a)], &[Word(f(x, y, a))]);
            }
        }
    }
}

pub fn shifts<F: Fn(u32, u32, bool) -> Shifted>(out: &impl Print, name: &[u8], f: F)
    requires { F.IsAlwaysCallable f }
{
    for x in WORDS {
        for amount in AMOUNTS {
            for carry in TRUTHS {
                let shifted = f(x, amount, carry);
                let results = [Word(shifted.value), Truth(shifted.carry)];
                line(out, name, &[Word(x), Word(amount), Truth(carry)], &results);
            }
        }
    }
}

pub fn rrx(out: &impl Print) {
    for x in WORDS {
        for carry in TRUTHS {
            let shifted = shift::rrx(x, carry);
            let results = [Word(shifted.value), Truth(shifted.carry)];
            line(out, b"RRX", &[Word(x), Truth(carry)], &results);
        }
    }
}

pub fn constants(out: &impl Print) {
    for x in CONSTANTS {
        for carry in TRUTHS {
            let results = [
                Truth(constant::is_constant(x)),
                Truth(255 < x && constant::is_shifted_byte(x)),
                Truth(constant::carry_of(x, carry)),
            ];
            line(out, b"CONST", &[Word(x), Truth(carry)], &results);
        }
    }
}

pub fn long<F: Fn(u32, u32) -> Long>(out: &impl Print, name: &[u8], f: F)
    requires { F.IsAlwaysCallable f }
{
    for x in WORDS {
        for y in WORDS {
            let product = f(x, y);
            let results = [Word(product.low), Word(product.high)];
            line(out, name, &[Word(x), Word(y)], &results);
        }
    }
}

pub fn long_sums<F: Fn(u32, u32, Long) -> Long>(out: &impl Print, name: &[u8], f: F)
    requires { F.IsAlwaysCallable f }
{
    for x in WORDS {
        for y in WORDS {
            for a in SUMS {
                let sum = f(x, y, a);
                let operands = [Word(x), Word(y), Word(a.low), Word(a.high)];
                line(out, name, &operands, &[Word(sum.low), Word(sum.high)]);
            }
        }
    }
}

pub fn saturated<F: Fn(u32, i32) -> Saturated>(out: &impl Print, name: &[u8], counts: &[u32], f: F)
    requires { F.IsAlwaysCallable f }
{
    for x in WORDS {
        for bits in counts {
            let nearest = f(*bits, word::signed_of(x));
            let results = [
                Word(word::unsigned_of(nearest.value)),
                Truth(nearest.saturated),
            ];
            line(out, name, &[Word(x), Word(*bits)], &results);
        }
    }
}

pub fn fields<F: Fn(u32, u32, u32) -> u32>(out: &impl Print, name: &[u8], f: F)
    requires { F.IsAlwaysCallable f }
{
    for x in WORDS {
        for (lsb, width) in FIELDS {
            line(
                out,
                name,
                &[Word(x), Word(lsb), Word(width)],
                &[Word(f(x, lsb, width))],
            );
        }
    }
}

pub fn inserted(out: &impl Print) {
    for d in WORDS {
        for x in WORDS {
            for (lsb, width) in FIELDS {
                let operands = [Word(d), Word(x), Word(lsb), Word(width)];
                line(
                    out,
                    b"BFI",
                    &operands,
                    &[Word(field::bfi(d, x, lsb, width))],
                );
            }
        }
    }
}

pub fn counts(out: &impl Print) {
    for list in LISTS {
        line(
            out,
            b"COUNT",
            &[Word(u32::from(list))],
            &[Word(register_list::count(list))],
        );
    }
}

pub fn members(out: &impl Print) {
    for list in LISTS {
        for register in REGISTERS {
            let results = [Truth(register_list::holds(list, register))];
            line(
                out,
                b"HOLDS",
                &[Word(u32::from(list)), Word(register)],
                &results,
            );
        }
    }
}
