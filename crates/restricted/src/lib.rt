// Is a record allowed, or restricted?

#![tactic(auto)]

mod parts;

ghost use Rattle.std.specs.Prelude.{◌≡◌};
ghost use Rattle.restricted.specs.Restricted.{allowed};

use record::{Record, register};

#[tactic(auto, unfolding(crate::specs::Restricted::allowed))]
pub fn is_allowed(r: Record) -> bool
    ensures { result ≡ allowed r }
{
    match r {
        Record::ShiftedRegister(d) => parts::shifted_register_of(d),
        Record::Constant(d) => parts::constant_of(d),
        Record::RegisterShift(d) => parts::plain_of(d.rd)
            & parts::plain_of(d.rn)
            & parts::plain_of(d.rs),
        Record::AddNumber(d) => parts::add_number_of(d),
        Record::MoveNumber(d) => parts::plain_of(d.rd),
        Record::Unary(d) => parts::plain_of(d.rd) & parts::plain_of(d.rm),
        Record::Multiply(d) => parts::multiply_of(d),
        Record::LongMultiply(d) => parts::long_multiply_of(d),
        Record::Divide(d) => parts::plain_of(d.rd) & parts::plain_of(d.rn) & parts::plain_of(d.rm),
        Record::Saturate(d) => parts::plain_of(d.rd) & parts::plain_of(d.rm),
        Record::BitField(d) => parts::plain_of(d.rd) & parts::plain_of(d.rn),
        Record::Extend(d) => parts::plain_of(d.rd) & parts::plain_of(d.rm),
        Record::Access(d) => parts::access_of(d),
        Record::IndexedAccess(d) => parts::indexed_access_of(d),
        Record::DualAccess(d) => parts::dual_access_of(d),
        Record::MultipleAccess(d) => parts::multiple_access_of(d),
        Record::Branch(_) => true,
        Record::RegisterBranch(d) => !(d.op.is_blx() & (d.rm == register::PC)),
        Record::CompareBranch(_) => true,
        Record::IfThen(d) => (d.condition != 14) | (d.elses == 0),
        Record::Nop(_) => true,
        Record::TableBranch(d) => (d.rn != register::SP) & parts::plain_of(d.rm),
        Record::Filler(_) => false,
    }
}
