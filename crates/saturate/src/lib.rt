// SSAT and USAT of an i32, and whether the number was saturated.

#![tactic(auto)]

ghost use Rattle.std.specs.Prelude.{◌≡◌, ◌-◌, ◌^◌, min, pos};
ghost use Rattle.saturate.specs.Saturate.{SSAT, USAT, saturated_to};

// The value counts whether it was saturated or not, so this is no Result.
#[derive(Clone, Copy, Debug, PartialEq, Eq)]
pub struct Saturated {
    pub value: i32,
    pub saturated: bool,
}

pub fn ssat(bits: u32, number: i32) -> Saturated
    ensures { result ≡ SSAT bits number }
{
    let most = most_of(bits.saturating_sub(1));
    saturate(-1 - most, most, number)
}

#[tactic(auto, unfolding(crate::specs::Saturate::USAT))]
pub fn usat(bits: u32, number: i32) -> Saturated
    ensures { result ≡ USAT bits number }
{
    saturate(0, most_of(bits), number)
}

pub fn saturate(least: i32, most: i32, number: i32) -> Saturated
    ensures { result ≡ saturated_to least most number }
{
    Saturated {
        value: nearest(least, most, number),
        saturated: (number < least) | (most < number),
    }
}

// `clamp` asks that least is no more than most, which `saturate` does not.
fn nearest(least: i32, most: i32, number: i32) -> i32
    ensures { result ≡ (saturated_to least most number).value }
{
    if number < least {
        least
    } else if most < number {
        most
    } else {
        number
    }
}

// The largest number of so many bits that an i32 holds.
fn most_of(bits: u32) -> i32
    ensures { result ≡ pos (min (2 ^ bits) (2 ^ 31) - 1) }
{
    if bits >= 31 {
        return i32::MAX;
    }
    word::ones(bits) as i32
}
