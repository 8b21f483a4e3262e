// Sums and differences with carry: ADD ADC SUB SBC RSB CMP CMN are said by these two.

#![tactic(auto)]

ghost use Rattle.std.specs.Prelude.{◌≡◌};
ghost use Rattle.sum.specs.Sum.{add_with_carry, subtract_with_carry};

// The carry and the overflow count whichever they are: neither says that the value is missing, so this is no Option.
#[derive(Clone, Copy, Debug, PartialEq, Eq)]
pub struct Sum {
    pub value: u32,
    pub carry: bool,
    pub overflow: bool,
}

pub fn add_with_carry(x: u32, y: u32, carry: bool) -> Sum
    ensures { result ≡ add_with_carry x y carry }
{
    let (value, carry) = x.carrying_add(y, carry);
    let minus_x = x >> 31 == 1;
    let minus_y = y >> 31 == 1;
    let minus_value = value >> 31 == 1;
    Sum {
        value,
        carry,
        overflow: (minus_x == minus_y) & (minus_x != minus_value),
    }
}

// A difference is the sum with every bit of y turned over: x - y = x + !y + 1.
pub fn subtract_with_carry(x: u32, y: u32, carry: bool) -> Sum
    ensures { result ≡ subtract_with_carry x y carry }
{
    add_with_carry(x, !y, carry)
}
