// Are the fields of a record as paper 01 has them?

#![tactic(auto)]

mod parts;

ghost use Rattle.std.specs.Prelude.{◌≡◌};
ghost use Rattle.fields.specs.Fields.{well_formed};

use record::Record;

pub fn is_well_formed(r: Record) -> bool
    ensures { result ≡ well_formed r }
{
    match r {
        Record::ShiftedRegister(d) => parts::shifted_register_of(d),
        Record::Constant(d) => parts::constant_of(d),
        Record::RegisterShift(d) => parts::register_shift_of(d),
        Record::AddNumber(d) => !d.form.s & (d.rd < 16) & (d.rn < 16) & (d.number <= 4095),
        Record::MoveNumber(d) => !d.form.s & (d.rd < 16),
        Record::Unary(d) => !d.form.s & (d.rd < 16) & (d.rm < 16),
        Record::Multiply(d) => parts::multiply_of(d),
        Record::LongMultiply(d) => !d.form.s
            & (d.low < 16)
            & (d.high < 16)
            & (d.rn < 16)
            & (d.rm < 16),
        Record::Divide(d) => !d.form.s & (d.rd < 16) & (d.rn < 16) & (d.rm < 16),
        Record::Saturate(d) => parts::saturate_of(d),
        Record::BitField(d) => parts::bit_field_of(d),
        Record::Extend(d) => parts::extend_of(d),
        Record::Access(d) => parts::access_of(d),
        Record::IndexedAccess(d) => !d.form.s
            & (d.rt < 16)
            & (d.rn < 16)
            & (d.rm < 16)
            & (d.amount <= 3),
        Record::DualAccess(d) => parts::dual_access_of(d),
        Record::MultipleAccess(d) => !d.form.s & (d.rn < 16),
        Record::Branch(d) => parts::branch_of(d),
        Record::RegisterBranch(d) => !d.form.s & !d.form.wide & (d.rm < 16),
        Record::CompareBranch(d) => parts::compare_branch_of(d),
        Record::IfThen(d) => parts::if_then_of(d),
        Record::Nop(form) => !form.s,
        Record::TableBranch(d) => !d.form.s & d.form.wide & (d.rn < 16) & (d.rm < 16),
        Record::Filler(number) => parts::filler_of(number),
    }
}
