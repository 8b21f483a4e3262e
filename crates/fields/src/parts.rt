// The kinds of which a field has a rule by the operation, the shift or the mode.

ghost use Rattle.std.specs.Prelude.{◌≡◌};
ghost use Rattle.fields.specs.Fields.{data_operands, elses_fit, shift_amount, turns, multiply_accumulates, saturated_bits, saturated_shift, field_source, access_offset, dual_offset, branch_reach};
ghost use Rattle.fields.specs.Fields.{shifted_register_formed, constant_formed, register_shift_formed, multiply_formed, saturate_formed, bit_field_formed, extend_formed, access_formed, dual_access_formed, branch_formed, compare_branch_formed, if_then_formed, filler_formed};

use record::op::{BranchOp, DataOp, FieldOp, Mode, MultiplyOp, SaturateOp, Shift};
use record::{
    AccessFields, BitFieldFields, BranchFields, CompareBranchFields, ConstantFields,
    DualAccessFields, ExtendFields, Form, IfThenFields, MultiplyFields, RegisterShiftFields,
    SaturateFields, ShiftedRegisterFields, register,
};

pub fn shifted_register_of(d: ShiftedRegisterFields) -> bool
    ensures { result ≡ shifted_register_formed d }
{
    data_operands_of(d.op, d.form, d.rd, d.rn) & (d.rm < 16) & amount_of(d.shift, d.amount)
}

pub fn constant_of(d: ConstantFields) -> bool
    ensures { result ≡ constant_formed d }
{
    data_operands_of(d.op, d.form, d.rd, d.rn) & constant::is_constant(d.constant)
}

fn data_operands_of(op: DataOp, form: Form, rd: u8, rn: u8) -> bool
    ensures { result ≡ data_operands op form rd rn }
{
    let moves = matches!(op, DataOp::Mov | DataOp::Mvn);
    let compares = matches!(op, DataOp::Cmp | DataOp::Cmn | DataOp::Tst | DataOp::Teq);
    (rd < 16) & (rn < 16) & (!moves | (rn == 0)) & (!compares | (rd == 0) & form.s)
}

fn amount_of(shift: Shift, amount: u8) -> bool
    ensures { result ≡ shift_amount shift amount }
{
    match shift {
        Shift::Lsl => amount <= 31,
        Shift::Lsr | Shift::Asr => (1 <= amount) & (amount <= 32),
        Shift::Ror => (1 <= amount) & (amount <= 31),
        Shift::Rrx => amount == 0,
    }
}

pub fn register_shift_of(d: RegisterShiftFields) -> bool
    ensures { result ≡ register_shift_formed d }
{
    (d.rd < 16) & (d.rn < 16) & (d.rs < 16) & turns_of(d.shift)
}

fn turns_of(shift: Shift) -> bool
    ensures { result ≡ turns shift }
{
    !matches!(shift, Shift::Rrx)
}

pub fn multiply_of(d: MultiplyFields) -> bool
    ensures { result ≡ multiply_formed d }
{
    (d.rd < 16) & (d.rn < 16) & (d.rm < 16) & (d.ra < 16) & accumulates_of(d.op, d.form.s, d.ra)
}

fn accumulates_of(op: MultiplyOp, s: bool, ra: u8) -> bool
    ensures { result ≡ multiply_accumulates op s ra }
{
    match op {
        MultiplyOp::Mul => ra == 0,
        MultiplyOp::Mla | MultiplyOp::Mls => !s,
    }
}

pub fn saturate_of(d: SaturateFields) -> bool
    ensures { result ≡ saturate_formed d }
{
    !d.form.s
        & (d.rd < 16)
        & (d.rm < 16)
        & saturated_bits_of(d.op, d.bits)
        & saturated_shift_of(d.shift, d.amount)
}

fn saturated_bits_of(op: SaturateOp, bits: u8) -> bool
    ensures { result ≡ saturated_bits op bits }
{
    match op {
        SaturateOp::Ssat => (1 <= bits) & (bits <= 32),
        SaturateOp::Usat => bits <= 31,
    }
}

fn saturated_shift_of(shift: Shift, amount: u8) -> bool
    ensures { result ≡ saturated_shift shift amount }
{
    match shift {
        Shift::Lsl => amount <= 31,
        Shift::Asr => (1 <= amount) & (amount <= 31),
        Shift::Lsr | Shift::Ror | Shift::Rrx => false,
    }
}

pub fn bit_field_of(d: BitFieldFields) -> bool
    ensures { result ≡ bit_field_formed d }
{
    let end = d.lsb as u32 + d.width as u32;
    !d.form.s
        & (d.rd < 16)
        & (d.rn < 16)
        & (1 <= d.width)
        & (end <= 32)
        & field_source_of(d.op, d.rn)
}

fn field_source_of(op: FieldOp, rn: u8) -> bool
    ensures { result ≡ field_source op rn }
{
    !matches!(op, FieldOp::Bfc) | (rn == 0)
}

pub fn extend_of(d: ExtendFields) -> bool
    ensures { result ≡ extend_formed d }
{
    let turn = d.rotation;
    !d.form.s
        & (d.rd < 16)
        & (d.rm < 16)
        & ((turn == 0) | (turn == 8) | (turn == 16) | (turn == 24))
}

pub fn access_of(d: AccessFields) -> bool
    ensures { result ≡ access_formed d }
{
    !d.form.s & (d.rt < 16) & (d.rn < 16) & access_offset_of(d.mode, d.rn, d.offset)
}

fn access_offset_of(mode: Mode, rn: u8, offset: i16) -> bool
    ensures { result ≡ access_offset mode rn offset }
{
    match mode {
        Mode::Offset => {
            if rn == register::PC {
                return (-4095 <= offset) & (offset <= 4095);
            }
            (-255 <= offset) & (offset <= 4095)
        }
        Mode::PreIndexed | Mode::PostIndexed => (-255 <= offset) & (offset <= 255),
    }
}

pub fn dual_access_of(d: DualAccessFields) -> bool
    ensures { result ≡ dual_access_formed d }
{
    !d.form.s & (d.rt < 16) & (d.rt2 < 16) & (d.rn < 16) & dual_offset_of(d.offset)
}

fn dual_offset_of(offset: i16) -> bool
    ensures { result ≡ dual_offset offset }
{
    (-1020 <= offset) & (offset <= 1020) & (word::unsigned_of(offset as i32) & 3 == 0)
}

pub fn branch_of(d: BranchFields) -> bool
    ensures { result ≡ branch_formed d }
{
    !d.form.s
        & (word::unsigned_of(d.offset) & 1 == 0)
        & reach_of(d.op, d.form.wide, d.condition, d.offset)
}

fn reach_of(op: BranchOp, wide: bool, condition: u8, offset: i32) -> bool
    ensures { result ≡ branch_reach op wide condition offset }
{
    match op {
        BranchOp::B => {
            if condition == 14 {
                return (-16777216 <= offset) & (offset <= 16777214);
            }
            (condition <= 14) & ((-1048576 <= offset) & (offset <= 1048574))
        }
        BranchOp::Bl => (condition == 14) & wide & ((-16777216 <= offset) & (offset <= 16777214)),
    }
}

pub fn compare_branch_of(d: CompareBranchFields) -> bool
    ensures { result ≡ compare_branch_formed d }
{
    !d.form.s & !d.form.wide & (d.rn <= 7) & (d.offset <= 126) & (d.offset % 2 == 0)
}

pub fn if_then_of(d: IfThenFields) -> bool
    ensures { result ≡ if_then_formed d }
{
    !d.form.s
        & !d.form.wide
        & (d.condition <= 14)
        & (1 <= d.count)
        & (d.count <= 4)
        & elses_fit_of(d.elses, d.count)
}

// An even number of 16 bits is at most 65,534.
pub fn filler_of(number: u16) -> bool
    ensures { result ≡ filler_formed number }
{
    (2 <= number) & (number % 2 == 0)
}

// There is an else bit for each record after the first.
fn elses_fit_of(elses: u8, count: u8) -> bool
    ensures { result ≡ elses_fit elses count }
{
    if count == 0 {
        return elses < 1;
    }
    if 8 < count {
        return true;
    }
    (elses as u32) < (1 << (count - 1))
}
