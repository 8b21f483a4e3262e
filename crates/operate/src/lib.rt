// What the operations of kinds 01 to 0C make of their operands.

#![tactic(auto)]

ghost use Rattle.std.specs.Prelude.{◌≡◌};
ghost use Rattle.operate.specs.Operate.{shifter, constant_operand, logical, operated, added, placed_number, unary_result, multiplied, multiplied_long, divided, saturation, saturated, fielded, extended};

use product::Long;
use record::op::{
    AddOp, DataOp, DivideOp, ExtendOp, FieldOp, LongOp, MoveOp, MultiplyOp, SaturateOp, Shift,
    UnaryOp,
};
use saturate::Saturated;
use shift::Shifted;
use sum::Sum;

// What SSAT or USAT puts in its register, and whether it saturated: the value counts either way, so this is no Result.
#[derive(Clone, Copy)]
pub struct Saturation {
    pub value: u32,
    pub saturated: bool,
}

#[tactic(auto, unfolding(crate::specs::Operate::shifter))]
pub fn shifter_of(by: Shift, x: u32, amount: u32, carry: bool) -> Shifted
    ensures { result ≡ shifter by x amount carry }
{
    match by {
        Shift::Lsl => shift::lsl(x, amount, carry),
        Shift::Lsr => shift::lsr(x, amount, carry),
        Shift::Asr => shift::asr(x, amount, carry),
        Shift::Ror => shift::ror(x, amount, carry),
        Shift::Rrx => shift::rrx(x, carry),
    }
}

#[tactic(auto, unfolding(crate::specs::Operate::constant_operand))]
pub fn constant_operand_of(x: u32, carry: bool) -> Shifted
    ensures { result ≡ constant_operand x carry }
{
    Shifted {
        value: x,
        carry: constant::carry_of(x, carry),
    }
}

fn logical_of(value: u32, y: Shifted, overflow: bool) -> Sum
    ensures { result ≡ logical value y overflow }
{
    Sum {
        value,
        carry: y.carry,
        overflow,
    }
}

#[tactic(auto, unfolding(crate::specs::Operate::operated))]
pub fn operate(op: DataOp, x: u32, y: Shifted, carry: bool, overflow: bool) -> Sum
    ensures { result ≡ operated op x y carry overflow }
{
    match op {
        DataOp::Add => sum::add_with_carry(x, y.value, false),
        DataOp::Adc => sum::add_with_carry(x, y.value, carry),
        DataOp::Sub => sum::subtract_with_carry(x, y.value, true),
        DataOp::Sbc => sum::subtract_with_carry(x, y.value, carry),
        DataOp::Rsb => sum::subtract_with_carry(y.value, x, true),
        DataOp::And => logical_of(logic::and(x, y.value), y, overflow),
        DataOp::Orr => logical_of(logic::orr(x, y.value), y, overflow),
        DataOp::Eor => logical_of(logic::eor(x, y.value), y, overflow),
        DataOp::Bic => logical_of(logic::bic(x, y.value), y, overflow),
        DataOp::Orn => logical_of(logic::orn(x, y.value), y, overflow),
        DataOp::Mov => logical_of(y.value, y, overflow),
        DataOp::Mvn => logical_of(logic::mvn(y.value), y, overflow),
        DataOp::Cmp => sum::subtract_with_carry(x, y.value, true),
        DataOp::Cmn => sum::add_with_carry(x, y.value, false),
        DataOp::Tst => logical_of(logic::and(x, y.value), y, overflow),
        DataOp::Teq => logical_of(logic::eor(x, y.value), y, overflow),
    }
}

#[tactic(auto, unfolding(crate::specs::Operate::added))]
pub fn add(op: AddOp, x: u32, number: u32) -> u32
    ensures { result ≡ added op x number }
{
    match op {
        AddOp::Addw => {
            let s = sum::add_with_carry(x, number, false);
            s.value
        }
        AddOp::Subw => {
            let s = sum::subtract_with_carry(x, number, true);
            s.value
        }
    }
}

#[tactic(auto, unfolding(crate::specs::Operate::placed_number))]
pub fn place_number(op: MoveOp, d: u32, number: u16) -> u32
    ensures { result ≡ placed_number op d number }
{
    match op {
        MoveOp::Movw => number as u32,
        MoveOp::Movt => (number as u32) << 16 | d & 0xffff,
    }
}

#[tactic(auto, unfolding(crate::specs::Operate::unary_result))]
pub fn unary(op: UnaryOp, x: u32) -> u32
    ensures { result ≡ unary_result op x }
{
    match op {
        UnaryOp::Clz => reverse::clz(x),
        UnaryOp::Rev => reverse::rev(x),
        UnaryOp::Rev16 => reverse::rev16(x),
        UnaryOp::Revsh => reverse::revsh(x),
        UnaryOp::Rbit => reverse::rbit(x),
    }
}

#[tactic(auto, unfolding(crate::specs::Operate::multiplied))]
pub fn multiply(op: MultiplyOp, x: u32, y: u32, a: u32) -> u32
    ensures { result ≡ multiplied op x y a }
{
    match op {
        MultiplyOp::Mul => product::mul(x, y),
        MultiplyOp::Mla => product::mla(x, y, a),
        MultiplyOp::Mls => product::mls(x, y, a),
    }
}

#[tactic(auto, unfolding(crate::specs::Operate::multiplied_long))]
pub fn multiply_long(op: LongOp, x: u32, y: u32, before: Long) -> Long
    ensures { result ≡ multiplied_long op x y before }
{
    match op {
        LongOp::Umull => product::umull(x, y),
        LongOp::Umlal => product::umlal(x, y, before),
        LongOp::Smull => product::smull(x, y),
        LongOp::Smlal => product::smlal(x, y, before),
    }
}

#[tactic(auto, unfolding(crate::specs::Operate::divided))]
pub fn divide(op: DivideOp, x: u32, y: u32) -> u32
    ensures { result ≡ divided op x y }
{
    match op {
        DivideOp::Sdiv => quotient::sdiv(x, y),
        DivideOp::Udiv => quotient::udiv(x, y),
    }
}

#[tactic(auto, unfolding(crate::specs::Operate::saturation))]
fn saturation_of(s: Saturated) -> Saturation
    ensures { result ≡ saturation s }
{
    Saturation {
        value: word::unsigned_of(s.value),
        saturated: s.saturated,
    }
}

#[tactic(auto, unfolding(crate::specs::Operate::saturated))]
pub fn saturate(op: SaturateOp, bits: u32, x: u32) -> Saturation
    ensures { result ≡ saturated op bits x }
{
    let number = word::signed_of(x);
    match op {
        SaturateOp::Ssat => saturation_of(saturate::ssat(bits, number)),
        SaturateOp::Usat => saturation_of(saturate::usat(bits, number)),
    }
}

#[tactic(auto, unfolding(crate::specs::Operate::fielded))]
pub fn set_field(op: FieldOp, d: u32, x: u32, lsb: u32, width: u32) -> u32
    ensures { result ≡ fielded op d x lsb width }
{
    match op {
        FieldOp::Bfc => field::bfc(d, lsb, width),
        FieldOp::Bfi => field::bfi(d, x, lsb, width),
        FieldOp::Sbfx => field::sbfx(x, lsb, width),
        FieldOp::Ubfx => field::ubfx(x, lsb, width),
    }
}

#[tactic(auto, unfolding(crate::specs::Operate::extended))]
pub fn extend(op: ExtendOp, x: u32, rotation: u32) -> u32
    ensures { result ≡ extended op x rotation }
{
    match op {
        ExtendOp::Sxtb => field::sxtb(x, rotation),
        ExtendOp::Sxth => field::sxth(x, rotation),
        ExtendOp::Uxtb => field::uxtb(x, rotation),
        ExtendOp::Uxth => field::uxth(x, rotation),
    }
}
