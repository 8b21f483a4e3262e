// The kinds that take R13 or R15 in some places, or restrict more than those.

ghost use Rattle.std.specs.Prelude.{◌≡◌};
ghost use Rattle.restricted.specs.Restricted.{plain, first_operand, result_register, transferred};
ghost use Rattle.restricted.specs.Restricted.{shifted_register_allowed, constant_allowed, add_number_allowed, multiply_allowed, long_multiply_allowed, access_allowed, indexed_access_allowed, dual_access_allowed, multiple_access_allowed};

use record::op::{AccessOp, DataOp};
use record::{
    AccessFields, AddNumberFields, ConstantFields, DualAccessFields, IndexedAccessFields,
    LongMultiplyFields, MultipleAccessFields, MultiplyFields, ShiftedRegisterFields, register,
};

pub fn plain_of(n: u8) -> bool
    ensures { result ≡ plain n }
{
    (n != register::SP) & (n != register::PC)
}

pub fn shifted_register_of(d: ShiftedRegisterFields) -> bool
    ensures { result ≡ shifted_register_allowed d }
{
    let lsl = d.shift.is_lsl();
    let straight = lsl & (d.amount == 0) & !d.form.s;
    let rm = plain_of(d.rm);
    matches!(d.op, DataOp::Mov) & straight
        | matches!(d.op, DataOp::Add)
            & straight
            & (d.rd == register::PC)
            & (d.rn == register::PC)
            & rm
        | first_operand_of(d.op, d.rn) & result_of(d.op, d.rd, d.rn, lsl & (d.amount <= 3)) & rm
}

pub fn constant_of(d: ConstantFields) -> bool
    ensures { result ≡ constant_allowed d }
{
    first_operand_of(d.op, d.rn) & result_of(d.op, d.rd, d.rn, true)
}

fn first_operand_of(op: DataOp, rn: u8) -> bool
    ensures { result ≡ first_operand op rn }
{
    plain_of(rn)
        | (rn == register::SP) & matches!(op, DataOp::Add | DataOp::Sub | DataOp::Cmp | DataOp::Cmn)
}

fn result_of(op: DataOp, rd: u8, rn: u8, small: bool) -> bool
    ensures { result ≡ result_register op rd rn small }
{
    plain_of(rd)
        | (rd == register::SP)
            & matches!(op, DataOp::Add | DataOp::Sub)
            & (rn == register::SP)
            & small
}

pub fn add_number_of(d: AddNumberFields) -> bool
    ensures { result ≡ add_number_allowed d }
{
    plain_of(d.rd) | (d.rd == register::SP) & (d.rn == register::SP)
}

pub fn multiply_of(d: MultiplyFields) -> bool
    ensures { result ≡ multiply_allowed d }
{
    plain_of(d.rd)
        & plain_of(d.rn)
        & plain_of(d.rm)
        & plain_of(d.ra)
        & (!d.form.s | (d.rd <= 7) & (d.rn <= 7) & (d.rm <= 7) & (d.rd == d.rm))
}

pub fn long_multiply_of(d: LongMultiplyFields) -> bool
    ensures { result ≡ long_multiply_allowed d }
{
    plain_of(d.low) & plain_of(d.high) & plain_of(d.rn) & plain_of(d.rm) & (d.low != d.high)
}

fn transferred_of(op: AccessOp, rt: u8) -> bool
    ensures { result ≡ transferred op rt }
{
    match op {
        AccessOp::Ldr => true,
        AccessOp::Str => rt != register::PC,
        _ => plain_of(rt),
    }
}

pub fn access_of(d: AccessFields) -> bool
    ensures { result ≡ access_allowed d }
{
    let offset = d.mode.is_offset();
    transferred_of(d.op, d.rt)
        & ((d.rn != register::PC) | d.op.loads() & offset)
        & (offset | (d.rn != d.rt))
}

pub fn indexed_access_of(d: IndexedAccessFields) -> bool
    ensures { result ≡ indexed_access_allowed d }
{
    transferred_of(d.op, d.rt) & (d.rn != register::PC) & plain_of(d.rm)
}

pub fn dual_access_of(d: DualAccessFields) -> bool
    ensures { result ≡ dual_access_allowed d }
{
    let loads = d.op.loads();
    let offset = d.mode.is_offset();
    plain_of(d.rt)
        & plain_of(d.rt2)
        & (!loads | (d.rt != d.rt2))
        & ((d.rn != register::PC) | loads & offset)
        & (offset | (d.rn != d.rt) & (d.rn != d.rt2))
}

pub fn multiple_access_of(d: MultipleAccessFields) -> bool
    ensures { result ≡ multiple_access_allowed d }
{
    let pc = register_list::holds(d.list, register::PC as u32);
    (d.list != 0)
        & !register_list::holds(d.list, register::SP as u32)
        & !(pc & !d.op.loads())
        & !(register_list::holds(d.list, register::LR as u32) & pc)
        & !(d.writeback & register_list::holds(d.list, d.rn as u32))
        & (d.rn != register::PC)
}
