// The base written back, and what else a record writes with it.

ghost use Rattle.std.specs.Prelude.{◌≡◌, ◌<◌};
ghost use Rattle.lent.specs.Lent.{put_in, Settled};
ghost use Rattle.access_arms.specs.Reaching.{back_in};

use crate::reach::Back;
use record::register;
use refusal::Refusal;

// At the next record.
pub fn write_back(registers: &mut [u32; 16], ahead: u32, back: Option<Back>)
    ensures { registers.new ≡ back_in registers.old ahead back }
{
    lent::put(registers, register::PC, ahead);
    if let Some(base) = back {
        lent::put(registers, base.rn, base.to);
    }
}

pub fn settle(registers: &mut [u32; 16], ahead: u32, back: Option<Back>) -> Result<(), Refusal>
    ensures { Settled registers.old (back_in registers.old ahead back) registers.new result }
{
    match back {
        Some(base) => lent::settle(registers, ahead, base.rn, base.to),
        None => lent::settle_none(registers, ahead),
    }
}

pub fn settle_load(
    registers: &mut [u32; 16],
    ahead: u32,
    back: Option<Back>,
    rt: u8,
    value: u32,
) -> Result<(), Refusal>
    requires { rt < 16 }
    ensures { Settled registers.old (put_in (back_in registers.old ahead back) rt value) registers.new result }
{
    match back {
        Some(base) => lent::settle_two(registers, ahead, base.rn, base.to, rt, value),
        None => lent::settle(registers, ahead, rt, value),
    }
}

// Three registers may be written: all sixteen are kept to take back.
pub fn settle_dual(
    registers: &mut [u32; 16],
    ahead: u32,
    back: Option<Back>,
    rt: u8,
    low: u32,
    rt2: u8,
    high: u32,
) -> Result<(), Refusal>
    requires { (rt < 16) × (rt2 < 16) }
    ensures { Settled registers.old (put_in (put_in (back_in registers.old ahead back) rt low) rt2 high) registers.new result }
{
    let before = *registers;
    write_back(registers, ahead, back);
    lent::put(registers, rt, low);
    lent::put(registers, rt2, high);
    if lent::is_steady(registers) {
        return Ok(());
    }
    *registers = before;
    Err(Refusal::Unsteady)
}
