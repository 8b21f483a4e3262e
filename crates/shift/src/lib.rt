// The shifter: a word shifted by any amount, and the carry that it gives.

#![tactic(auto)]

ghost use Rattle.std.specs.Prelude.{◌≡◌, ◌%◌};
ghost use Rattle.shift.specs.Shift.{LSL, LSR, ASR, ROR, RRX, rotated};

// The carry counts whichever it is: it does not say that the value is missing, so this is no Option.
#[derive(Clone, Copy, Debug, PartialEq, Eq)]
pub struct Shifted {
    pub value: u32,
    pub carry: bool,
}

pub fn lsl(x: u32, amount: u32, carry: bool) -> Shifted
    ensures { result ≡ LSL x amount carry }
{
    if amount == 0 {
        return Shifted { value: x, carry };
    }
    if amount > 32 {
        return Shifted {
            value: 0,
            carry: false,
        };
    }
    let wide = (x as u64) << amount;
    Shifted {
        value: (wide & 0xffff_ffff) as u32,
        carry: (wide >> 32) & 1 == 1,
    }
}

pub fn lsr(x: u32, amount: u32, carry: bool) -> Shifted
    ensures { result ≡ LSR x amount carry }
{
    if amount == 0 {
        return Shifted { value: x, carry };
    }
    if 33 <= amount {
        return Shifted {
            value: 0,
            carry: false,
        };
    }
    let last = word::bit_of(amount - 1, x);
    Shifted {
        value: (x as u64 >> amount) as u32,
        carry: last,
    }
}

pub fn asr(x: u32, amount: u32, carry: bool) -> Shifted
    ensures { result ≡ ASR x amount carry }
{
    if amount == 0 {
        return Shifted { value: x, carry };
    }
    if amount >= 32 {
        return Shifted {
            value: word::unsigned_of(word::signed_of(x) >> 31),
            carry: word::bit_of(31, x),
        };
    }
    Shifted {
        value: word::unsigned_of(word::signed_of(x) >> amount),
        carry: word::bit_of(amount - 1, x),
    }
}

// A word turned to the right.
pub fn rotate_right(x: u32, amount: u32) -> u32
    ensures { result ≡ rotated x (amount % 32) }
{
    x.rotate_right(amount)
}

#[tactic(auto, unfolding(crate::specs::Shift::ROR, crate::specs::Shift::rotated))]
pub fn ror(x: u32, amount: u32, carry: bool) -> Shifted
    ensures { result ≡ ROR x amount carry }
{
    if amount == 0 {
        return Shifted { value: x, carry };
    }
    let value = rotate_right(x, amount);
    Shifted {
        value,
        carry: value >> 31 == 1,
    }
}

#[tactic(auto, unfolding(crate::specs::Shift::RRX))]
pub fn rrx(x: u32, carry: bool) -> Shifted
    ensures { result ≡ RRX x carry }
{
    Shifted {
        value: (word::one_if(carry) << 31) | (x >> 1),
        carry: x & 1 == 1,
    }
}
