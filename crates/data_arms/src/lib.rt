// Kinds 01 to 0C in a run: registers and flags are lent, and the fields come from the bytes of a record that the check has passed.

#![tactic(auto)]

ghost use Rattle.std.specs.Prelude.{◌<◌, ltb};
ghost use Rattle.refusal.specs.Refusal.{number_of};
ghost use Rattle.lent.specs.Lent.{put_in, Settled, OfKind, ObeysOn, ObeysMarking};
ghost use Rattle.std.specs.Prelude.{if◌then◌else◌};
ghost use Rattle.record.specs.Op.{data_code};
ghost use Rattle.machine.specs.Machine.{PC};
ghost use Rattle.data_arms.specs.Data.{Operates, Prepared};

use flags::Flags;
use lent::bytes;
use product::Long;
use record::op::DataOp;
use refusal::Refusal;
use shift::Shifted;

#[derive(Clone, Copy)]
pub struct Operands {
    pub op: DataOp,
    pub s: bool,
    pub rd: u8,
    pub x: u32,
    pub y: Shifted,
}

// Kinds 01, 02 and 03.
pub fn operate(
    registers: &mut [u32; 16],
    flags: &mut Flags,
    ahead: u32,
    r: &[u8],
) -> Result<(), Refusal>
    requires { Operates r.now }
    ensures { ObeysMarking (number_of result) registers.new flags.new registers.old flags.old ahead r.now }
{
    let o = operands_of(registers, flags, r);
    let result = operate::operate(o.op, o.x, o.y, flags.c, flags.v);
    settle_data(registers, ahead, o.op, o.rd, result.value)?;
    if o.s {
        *flags = flags.with_all(result);
    }
    Ok(())
}

// CMP, CMN, TST and TEQ put nothing in a register.
fn settle_data(
    registers: &mut [u32; 16],
    ahead: u32,
    op: DataOp,
    rd: u8,
    value: u32,
) -> Result<(), Refusal>
    requires { rd < 16 }
    ensures { Settled registers.old (if ltb (data_code op) 12 then put_in (put_in registers.old PC ahead) rd value else put_in registers.old PC ahead) registers.new result }
{
    if op.code() < 12 {
        return lent::settle(registers, ahead, rd, value);
    }
    lent::settle_none(registers, ahead)
}

// By the byte of the kind (`kinds::record_from` says why).
fn operands_of(registers: &[u32; 16], flags: &Flags, r: &[u8]) -> Operands
    requires { Operates r.now }
    ensures { Prepared registers.now flags.now r.now result }
{
    let kind = r[0];
    if kind == 1 {
        return shifted_operands_of(registers, flags, r);
    }
    if kind == 2 {
        return constant_operands_of(registers, flags, r);
    }
    amount_operands_of(registers, flags, r)
}

fn shifted_operands_of(registers: &[u32; 16], flags: &Flags, r: &[u8]) -> Operands
    requires { OfKind 1 r.now }
    ensures { Prepared registers.now flags.now r.now result }
{
    let d = kinds::shifted_register_from(bytes::first::<8>(r));
    let x = lent::operand(registers, d.rn);
    let rm = lent::operand(registers, d.rm);
    let y = operate::shifter_of(d.shift, rm, u32::from(d.amount), flags.c);
    Operands {
        op: d.op,
        s: d.form.s,
        rd: d.rd,
        x,
        y,
    }
}

fn constant_operands_of(registers: &[u32; 16], flags: &Flags, r: &[u8]) -> Operands
    requires { OfKind 2 r.now }
    ensures { Prepared registers.now flags.now r.now result }
{
    let d = kinds::constant_from(bytes::first::<9>(r));
    let x = lent::operand(registers, d.rn);
    let y = operate::constant_operand_of(d.constant, flags.c);
    Operands {
        op: d.op,
        s: d.form.s,
        rd: d.rd,
        x,
        y,
    }
}

// Kind 03 is a move of what the shifter gives, by the lowest eight bits of what Rs holds.
fn amount_operands_of(registers: &[u32; 16], flags: &Flags, r: &[u8]) -> Operands
    requires { OfKind 3 r.now }
    ensures { Prepared registers.now flags.now r.now result }
{
    let d = kinds::register_shift_from(bytes::first::<6>(r));
    let amount = lent::operand(registers, d.rs) % 256;
    let rn = lent::operand(registers, d.rn);
    let y = operate::shifter_of(d.shift, rn, amount, flags.c);
    Operands {
        op: DataOp::Mov,
        s: d.form.s,
        rd: d.rd,
        x: 0,
        y,
    }
}

// 04
pub fn add_a_number(registers: &mut [u32; 16], ahead: u32, r: &[u8]) -> Result<(), Refusal>
    requires { OfKind 4 r.now }
    ensures { ObeysOn (number_of result) registers.new registers.old ahead r.now }
{
    let d = kinds::add_number_from(bytes::first::<7>(r));
    let value = operate::add(d.op, lent::base(registers, d.rn), u32::from(d.number));
    lent::settle(registers, ahead, d.rd, value)
}

// 05
pub fn move_a_number(registers: &mut [u32; 16], ahead: u32, r: &[u8]) -> Result<(), Refusal>
    requires { OfKind 5 r.now }
    ensures { ObeysOn (number_of result) registers.new registers.old ahead r.now }
{
    let d = kinds::move_number_from(bytes::first::<6>(r));
    let value = operate::place_number(d.op, lent::operand(registers, d.rd), d.number);
    lent::settle(registers, ahead, d.rd, value)
}

// 06
pub fn operate_unary(registers: &mut [u32; 16], ahead: u32, r: &[u8]) -> Result<(), Refusal>
    requires { OfKind 6 r.now }
    ensures { ObeysOn (number_of result) registers.new registers.old ahead r.now }
{
    let d = kinds::unary_from(bytes::first::<5>(r));
    let value = operate::unary(d.op, lent::operand(registers, d.rm));
    lent::settle(registers, ahead, d.rd, value)
}

// 07
pub fn multiply(
    registers: &mut [u32; 16],
    flags: &mut Flags,
    ahead: u32,
    r: &[u8],
) -> Result<(), Refusal>
    requires { OfKind 7 r.now }
    ensures { ObeysMarking (number_of result) registers.new flags.new registers.old flags.old ahead r.now }
{
    let d = kinds::multiply_from(bytes::first::<7>(r));
    let x = lent::operand(registers, d.rn);
    let y = lent::operand(registers, d.rm);
    let a = lent::operand(registers, d.ra);
    let value = operate::multiply(d.op, x, y, a);
    lent::settle(registers, ahead, d.rd, value)?;
    if d.form.s {
        *flags = flags.with_signs(value);
    }
    Ok(())
}

// 08
pub fn multiply_long(registers: &mut [u32; 16], ahead: u32, r: &[u8]) -> Result<(), Refusal>
    requires { OfKind 8 r.now }
    ensures { ObeysOn (number_of result) registers.new registers.old ahead r.now }
{
    let d = kinds::long_multiply_from(bytes::first::<7>(r));
    let before = Long {
        low: lent::operand(registers, d.low),
        high: lent::operand(registers, d.high),
    };
    let x = lent::operand(registers, d.rn);
    let y = lent::operand(registers, d.rm);
    let result = operate::multiply_long(d.op, x, y, before);
    lent::settle_two(registers, ahead, d.low, result.low, d.high, result.high)
}

// 09
pub fn divide(registers: &mut [u32; 16], ahead: u32, r: &[u8]) -> Result<(), Refusal>
    requires { OfKind 9 r.now }
    ensures { ObeysOn (number_of result) registers.new registers.old ahead r.now }
{
    let d = kinds::divide_from(bytes::first::<6>(r));
    let x = lent::operand(registers, d.rn);
    let y = lent::operand(registers, d.rm);
    let value = operate::divide(d.op, x, y);
    lent::settle(registers, ahead, d.rd, value)
}

// 0A
pub fn saturate(
    registers: &mut [u32; 16],
    flags: &mut Flags,
    ahead: u32,
    r: &[u8],
) -> Result<(), Refusal>
    requires { OfKind 10 r.now }
    ensures { ObeysMarking (number_of result) registers.new flags.new registers.old flags.old ahead r.now }
{
    let d = kinds::saturate_from(bytes::first::<8>(r));
    let rm = lent::operand(registers, d.rm);
    let x = operate::shifter_of(d.shift, rm, u32::from(d.amount), flags.c);
    let result = operate::saturate(d.op, u32::from(d.bits), x.value);
    lent::settle(registers, ahead, d.rd, result.value)?;
    *flags = flags.with_saturation(result.saturated);
    Ok(())
}

// 0B
pub fn set_field(registers: &mut [u32; 16], ahead: u32, r: &[u8]) -> Result<(), Refusal>
    requires { OfKind 11 r.now }
    ensures { ObeysOn (number_of result) registers.new registers.old ahead r.now }
{
    let d = kinds::bit_field_from(bytes::first::<7>(r));
    let before = lent::operand(registers, d.rd);
    let x = lent::operand(registers, d.rn);
    let value = operate::set_field(d.op, before, x, u32::from(d.lsb), u32::from(d.width));
    lent::settle(registers, ahead, d.rd, value)
}

// 0C
pub fn extend(registers: &mut [u32; 16], ahead: u32, r: &[u8]) -> Result<(), Refusal>
    requires { OfKind 12 r.now }
    ensures { ObeysOn (number_of result) registers.new registers.old ahead r.now }
{
    let d = kinds::extend_from(bytes::first::<6>(r));
    let value = operate::extend(d.op, lent::operand(registers, d.rm), u32::from(d.rotation));
    lent::settle(registers, ahead, d.rd, value)
}
