// The lines of the program.

ghost use Rattle.std.specs.Prelude.{◌≡◌, ◌++◌};
ghost use Rattle.text.specs.Text.{letters, decimal, bit_digit, check_text, register_line, register_lines, flags_line, end_text};
ghost use Rattle.text.specs.Code.{appended};

use crate::Text;
use flags::Flags;

#[tactic(auto, using(crate::proofs::Texts::whole, crate::proofs::Texts::check_length), unfolding(crate::specs::Text::check_text))]
pub fn check_text_of(number: u32, place: usize) -> Text
    ensures { result ≡ check_text number place }
{
    say_two(Text::new(), b"check ", number as usize, b" at ", place)
}

#[tactic(auto, using(crate::proofs::Texts::added_append, crate::proofs::Texts::whole, crate::proofs::Texts::end_length), unfolding(crate::specs::Text::end_text, crate::specs::Text::end_line))]
pub fn end_text_of(number: u32, count: u32, registers: [u32; 16], flags: Flags) -> Text
    ensures { result ≡ end_text number count registers flags }
{
    let first = say_two(
        Text::new(),
        b"end ",
        number as usize,
        b" steps ",
        count as usize,
    );
    say_flags(say_registers(first, registers), flags)
}

// A line of two numbers, each behind its word.
#[tactic(auto, using(crate::proofs::Texts::added_append))]
fn say_two(text: Text, first: &[u8], a: usize, second: &[u8], b: usize) -> Text
    ensures { result ≡ appended text (first.now ++ decimal a ++ second.now ++ decimal b ++ letters "\n") }
{
    text.say(first)
        .say_decimal(a)
        .say(second)
        .say_decimal(b)
        .say(b"\n")
}

#[tactic(auto, using(crate::proofs::Texts::added_append), unfolding(crate::specs::Text::register_line))]
fn say_register(text: Text, register: usize, value: u32) -> Text
    ensures { result ≡ appended text (register_line register value) }
{
    text.say(b"R")
        .say_decimal(register)
        .say(b" ")
        .say_hex(value)
        .say(b"\n")
}

#[tactic(auto, using(crate::proofs::Texts::added_none, crate::proofs::Texts::added_line), unfolding(crate::specs::Text::register_lines))]
fn say_registers(text: Text, registers: [u32; 16]) -> Text
    ensures { result ≡ appended text (register_lines 16 registers) }
{
    let mut more = text;
    for i in 0..16 {
        more = say_register(more, i, registers[i]);
    }
    more
}

fn say_flags(text: Text, flags: Flags) -> Text
    ensures { result ≡ appended text (flags_line flags) }
{
    let bits = [
        bit_of(flags.n),
        bit_of(flags.z),
        bit_of(flags.c),
        bit_of(flags.v),
        bit_of(flags.q),
    ];
    text.say(b"NZCVQ ").say(&bits).say(b"\n")
}

fn bit_of(flag: bool) -> u8
    ensures { result ≡ bit_digit flag }
{
    if flag { b'1' } else { b'0' }
}
