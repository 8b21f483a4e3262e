// UDIV, and SDIV by i32 division.

#![tactic(auto)]

ghost use Rattle.std.specs.Prelude.{◌≡◌};
ghost use Rattle.quotient.specs.Quotient.{UDIV, SDIV};

pub fn udiv(x: u32, y: u32) -> u32
    ensures { result ≡ UDIV x y }
{
    x.checked_div(y).unwrap_or(0)
}

pub fn sdiv(x: u32, y: u32) -> u32
    ensures { result ≡ SDIV x y }
{
    if y == 0 {
        return 0;
    }
    // The quotient of the minimum by minus one is no i32: it wraps to the minimum.
    word::unsigned_of(word::signed_of(x).wrapping_div(word::signed_of(y)))
}
