// The constants of kind 02, and the carry that one gives.

#![tactic(auto)]

ghost use Rattle.std.specs.Prelude.{◌≡◌};
ghost use Rattle.constant.specs.Constant.{shifted_byte, repeated_byte, constant, constant_carry};

// The highest bit set has at most seven places below it that may be set too.
pub fn is_shifted_byte(x: u32) -> bool
    ensures { result ≡ shifted_byte x }
{
    let length = 32 - x.leading_zeros();
    x & word::ones(length.saturating_sub(8)) == 0
}

#[tactic(auto, unfolding(crate::specs::Constant::repeated_byte))]
pub fn is_repeated_byte(x: u32) -> bool
    ensures { result ≡ repeated_byte x }
{
    let low = x & 0xff;
    let next = (x >> 8) & 0xff;
    (x == low * 0x0001_0001) | ((x == next * 0x0100_0100) | (x == low * 0x0101_0101))
}

#[tactic(auto, unfolding(crate::specs::Constant::constant))]
pub fn is_constant(x: u32) -> bool
    ensures { result ≡ constant x }
{
    is_shifted_byte(x) | is_repeated_byte(x)
}

#[tactic(auto, unfolding(crate::specs::Constant::constant_carry))]
pub fn carry_of(x: u32, carry: bool) -> bool
    ensures { result ≡ constant_carry x carry }
{
    if 255 < x && is_shifted_byte(x) {
        x >> 31 == 1
    } else {
        carry
    }
}
