// Kinds 01 to 0C: m is the machine before, from which all is read, next the machine at the next record.

ghost use Rattle.std.specs.Prelude.{◌≡◌};
ghost use Rattle.setup.specs.declared.Setup.{Setup};
ghost use Rattle.machine.specs.Machine.{answered};
ghost use Rattle.machine.specs.Compute.{flagged, resulting, data_done, register_amount, shifted_register_effect, constant_effect, register_shift_effect, add_number_effect, move_number_effect, unary_effect, multiply_effect, long_multiply_effect, divide_effect, saturate_effect, bit_field_effect, extend_effect};

use crate::Machine;
use product::Long;
use record::op::DataOp;
use record::{
    AddNumberFields, BitFieldFields, ConstantFields, DivideFields, ExtendFields,
    LongMultiplyFields, MoveNumberFields, MultiplyFields, RegisterShiftFields, SaturateFields,
    ShiftedRegisterFields, UnaryFields,
};
use refusal::Refusal;
use shift::Shifted;
use sum::Sum;

#[tactic(auto, unfolding(crate::specs::Compute::flagged))]
fn set_flags(next: Machine, s: bool, res: Sum) -> Machine
    ensures { result ≡ flagged next s res }
{
    if s {
        return next.with_flags(next.flags.with_all(res));
    }
    next
}

// CMP, CMN, TST and TEQ put nothing in a register.
#[tactic(auto, unfolding(crate::specs::Compute::resulting))]
fn put_result(next: Machine, op: DataOp, rd: u8, res: Sum) -> Machine
    ensures { result ≡ resulting next op rd res }
{
    if op.code() < 12 {
        return next.write(rd, res.value);
    }
    next
}

#[tactic(auto, unfolding(crate::specs::Compute::data_done))]
fn operate(m: Machine, next: Machine, op: DataOp, s: bool, rd: u8, x: u32, y: Shifted) -> Machine
    ensures { result ≡ data_done m next op s rd x y }
{
    let result = operate::operate(op, x, y, m.flags.c, m.flags.v);
    set_flags(put_result(next, op, rd, result), s, result)
}

#[tactic(auto, unfolding(crate::specs::Compute::shifted_register_effect))]
pub fn shift_register(
    m: Machine,
    next: Machine,
    d: ShiftedRegisterFields,
) -> Result<Machine, Refusal>
    ensures { (setup : Setup) → answered m result ≡ shifted_register_effect m next d setup }
{
    let y = operate::shifter_of(d.shift, m.operand(d.rm), d.amount as u32, m.flags.c);
    operate(m, next, d.op, d.form.s, d.rd, m.operand(d.rn), y).settle()
}

#[tactic(auto, unfolding(crate::specs::Compute::constant_effect))]
pub fn operate_constant(m: Machine, next: Machine, d: ConstantFields) -> Result<Machine, Refusal>
    ensures { (setup : Setup) → answered m result ≡ constant_effect m next d setup }
{
    let y = operate::constant_operand_of(d.constant, m.flags.c);
    operate(m, next, d.op, d.form.s, d.rd, m.operand(d.rn), y).settle()
}

// The amount of kind 03: the lowest eight bits of what Rs holds.
#[tactic(auto, unfolding(crate::specs::Compute::register_amount))]
fn register_amount_of(rs: u32) -> u32
    ensures { result ≡ register_amount rs }
{
    rs % 256
}

#[tactic(auto, unfolding(crate::specs::Compute::register_shift_effect))]
pub fn shift_by_register(
    m: Machine,
    next: Machine,
    d: RegisterShiftFields,
) -> Result<Machine, Refusal>
    ensures { (setup : Setup) → answered m result ≡ register_shift_effect m next d setup }
{
    let amount = register_amount_of(m.operand(d.rs));
    let y = operate::shifter_of(d.shift, m.operand(d.rn), amount, m.flags.c);
    operate(m, next, DataOp::Mov, d.form.s, d.rd, 0, y).settle()
}

#[tactic(auto, unfolding(crate::specs::Compute::add_number_effect))]
pub fn add_a_number(m: Machine, next: Machine, d: AddNumberFields) -> Result<Machine, Refusal>
    ensures { (setup : Setup) → answered m result ≡ add_number_effect m next d setup }
{
    next.write(d.rd, operate::add(d.op, m.base(d.rn), d.number as u32))
        .settle()
}

#[tactic(auto, unfolding(crate::specs::Compute::move_number_effect))]
pub fn move_a_number(m: Machine, next: Machine, d: MoveNumberFields) -> Result<Machine, Refusal>
    ensures { (setup : Setup) → answered m result ≡ move_number_effect m next d setup }
{
    next.write(d.rd, operate::place_number(d.op, m.operand(d.rd), d.number))
        .settle()
}

#[tactic(auto, unfolding(crate::specs::Compute::unary_effect))]
pub fn operate_unary(m: Machine, next: Machine, d: UnaryFields) -> Result<Machine, Refusal>
    ensures { (setup : Setup) → answered m result ≡ unary_effect m next d setup }
{
    next.write(d.rd, operate::unary(d.op, m.operand(d.rm)))
        .settle()
}

#[tactic(auto, unfolding(crate::specs::Compute::multiply_effect))]
pub fn multiply(m: Machine, next: Machine, d: MultiplyFields) -> Result<Machine, Refusal>
    ensures { (setup : Setup) → answered m result ≡ multiply_effect m next d setup }
{
    let value = operate::multiply(d.op, m.operand(d.rn), m.operand(d.rm), m.operand(d.ra));
    let after = next.write(d.rd, value);
    if d.form.s {
        return after.with_flags(after.flags.with_signs(value)).settle();
    }
    after.settle()
}

#[tactic(auto, unfolding(crate::specs::Compute::long_multiply_effect))]
pub fn multiply_long(m: Machine, next: Machine, d: LongMultiplyFields) -> Result<Machine, Refusal>
    ensures { (setup : Setup) → answered m result ≡ long_multiply_effect m next d setup }
{
    let before = Long {
        low: m.operand(d.low),
        high: m.operand(d.high),
    };
    let result = operate::multiply_long(d.op, m.operand(d.rn), m.operand(d.rm), before);
    next.write(d.low, result.low)
        .write(d.high, result.high)
        .settle()
}

#[tactic(auto, unfolding(crate::specs::Compute::divide_effect))]
pub fn divide(m: Machine, next: Machine, d: DivideFields) -> Result<Machine, Refusal>
    ensures { (setup : Setup) → answered m result ≡ divide_effect m next d setup }
{
    next.write(
        d.rd,
        operate::divide(d.op, m.operand(d.rn), m.operand(d.rm)),
    )
    .settle()
}

#[tactic(auto, unfolding(crate::specs::Compute::saturate_effect))]
pub fn saturate(m: Machine, next: Machine, d: SaturateFields) -> Result<Machine, Refusal>
    ensures { (setup : Setup) → answered m result ≡ saturate_effect m next d setup }
{
    let x = operate::shifter_of(d.shift, m.operand(d.rm), d.amount as u32, m.flags.c);
    let result = operate::saturate(d.op, d.bits as u32, x.value);
    let after = next.write(d.rd, result.value);
    after
        .with_flags(after.flags.with_saturation(result.saturated))
        .settle()
}

#[tactic(auto, unfolding(crate::specs::Compute::bit_field_effect))]
pub fn set_field(m: Machine, next: Machine, d: BitFieldFields) -> Result<Machine, Refusal>
    ensures { (setup : Setup) → answered m result ≡ bit_field_effect m next d setup }
{
    let value = operate::set_field(
        d.op,
        m.operand(d.rd),
        m.operand(d.rn),
        d.lsb as u32,
        d.width as u32,
    );
    next.write(d.rd, value).settle()
}

#[tactic(auto, unfolding(crate::specs::Compute::extend_effect))]
pub fn extend(m: Machine, next: Machine, d: ExtendFields) -> Result<Machine, Refusal>
    ensures { (setup : Setup) → answered m result ≡ extend_effect m next d setup }
{
    let value = operate::extend(d.op, m.operand(d.rm), d.rotation as u32);
    next.write(d.rd, value).settle()
}
