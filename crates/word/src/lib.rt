// What all of the arithmetic stands on: a word's bits, and a word as a signed number. The conversions are the library's; they have functions here to
// promise them by the definitions of specs/, once for all that is above.

#![tactic(auto)]

ghost use Rattle.std.specs.Prelude.{◌≡◌, ◌-◌, ◌%◌, ◌^◌};
ghost use Rattle.word.specs.Word.{one_if, bit, signed, signed_in, wrapped};

pub fn one_if(truth: bool) -> u32
    ensures { result ≡ one_if truth }
{
    u32::from(truth)
}

// No bit from 32 on is set.
pub fn bit_of(place: u32, x: u32) -> bool
    ensures { result ≡ bit place x }
{
    place < 32 && (x >> place) & 1 == 1
}

// The lowest bits set, as many as a word has at the most.
pub fn ones(count: u32) -> u32
    ensures { result ≡ (2 ^ count - 1) % 2 ^ 32 }
{
    if count < 32 {
        (1 << count) - 1
    } else {
        u32::MAX
    }
}

pub fn signed_of(x: u32) -> i32
    ensures { result ≡ signed x }
{
    x.cast_signed()
}

pub fn signed_half_of(half: u16) -> i16
    ensures { result ≡ signed_in 16 half }
{
    half.cast_signed()
}

pub fn unsigned_of(number: i32) -> u32
    ensures { result ≡ wrapped 32 number }
{
    number.cast_unsigned()
}

pub fn unsigned_long_of(long: i64) -> u64
    ensures { result ≡ wrapped 64 long }
{
    long.cast_unsigned()
}
