// The table of kinds: how long a record is, and its fields, read from its bytes.

#![tactic(auto)]

mod bits;

ghost use Rattle.std.specs.Prelude.{◌≡◌};
ghost use Rattle.record.specs.declared.Record.TheVariants.{ShiftedRegister, Constant, RegisterShift, AddNumber, MoveNumber, Unary, Multiply, LongMultiply, Divide, Saturate, BitField, Extend, Access, IndexedAccess, DualAccess, MultipleAccess, Branch, RegisterBranch, CompareBranch, IfThen, TableBranch};
ghost use Rattle.kinds.specs.Kinds.{nine, listing_length, names, record_of, shifted_register_from, constant_from, register_shift_from, add_number_from, move_number_from, unary_from, multiply_from, long_multiply_from, divide_from, saturate_from, bit_field_from, extend_from, access_from, indexed_access_from, dual_access_from, multiple_access_from, branch_from, register_branch_from, compare_branch_from, if_then_from, table_branch_from};

use bits::{form_of, half_of, word_of};
use record::op::{
    AccessOp, AddOp, BranchOp, CompareOp, DataOp, DivideOp, DualOp, ExtendOp, FieldOp, LongOp,
    Mode, MoveOp, MultipleOp, MultiplyOp, RegisterOp, SaturateOp, Shift, TableOp, UnaryOp,
};
use record::{
    AccessFields, AddNumberFields, BitFieldFields, BranchFields, CompareBranchFields,
    ConstantFields, DivideFields, DualAccessFields, ExtendFields, IfThenFields,
    IndexedAccessFields, LongMultiplyFields, MoveNumberFields, MultipleAccessFields,
    MultiplyFields, Record, RegisterBranchFields, RegisterShiftFields, SaturateFields,
    ShiftedRegisterFields, TableBranchFields, UnaryFields,
};

// The record that the bytes are, by their kind. A kind is its byte here and in a run: `Record` is the enum of kinds, and an enum of bytes beside
// it would say its 23 names a second time, to be matched again where the byte is matched now.
#[tactic(auto, unfolding(crate::specs::Kinds::record_of, little::specs::Little::little))]
pub fn record_from(r: [u8; 9]) -> Record
    ensures { result ≡ record_of r }
{
    match r[0] {
        0 => Record::Nop(form_of(r[1])),
        1 => Record::ShiftedRegister(shifted_register_from(r)),
        2 => Record::Constant(constant_from(r)),
        3 => Record::RegisterShift(register_shift_from(r)),
        4 => Record::AddNumber(add_number_from(r)),
        5 => Record::MoveNumber(move_number_from(r)),
        6 => Record::Unary(unary_from(r)),
        7 => Record::Multiply(multiply_from(r)),
        8 => Record::LongMultiply(long_multiply_from(r)),
        9 => Record::Divide(divide_from(r)),
        10 => Record::Saturate(saturate_from(r)),
        11 => Record::BitField(bit_field_from(r)),
        12 => Record::Extend(extend_from(r)),
        13 => Record::Access(access_from(r)),
        14 => Record::IndexedAccess(indexed_access_from(r)),
        15 => Record::DualAccess(dual_access_from(r)),
        16 => Record::MultipleAccess(multiple_access_from(r)),
        17 => Record::Branch(branch_from(r)),
        18 => Record::RegisterBranch(register_branch_from(r)),
        19 => Record::CompareBranch(compare_branch_from(r)),
        20 => Record::IfThen(if_then_from(r)),
        21 => Record::Nop(form_of(r[1])),
        22 => Record::TableBranch(table_branch_from(r)),
        23 => Record::Filler(half_of(r[1], r[2])),
        _ => Record::Nop(form_of(r[1])),
    }
}

#[tactic(auto, unfolding(crate::specs::Kinds::shifted_register_from))]
pub fn shifted_register_from(r: [u8; 9]) -> ShiftedRegisterFields
    ensures { ShiftedRegister result ≡ shifted_register_from r }
{
    ShiftedRegisterFields {
        op: DataOp::from(r[1]),
        form: form_of(r[2]),
        rd: r[3],
        rn: r[4],
        rm: r[5],
        shift: Shift::from(r[6]),
        amount: r[7],
    }
}

#[tactic(auto, unfolding(crate::specs::Kinds::constant_from, little::specs::Little::little))]
pub fn constant_from(r: [u8; 9]) -> ConstantFields
    ensures { Constant result ≡ constant_from r }
{
    ConstantFields {
        op: DataOp::from(r[1]),
        form: form_of(r[2]),
        rd: r[3],
        rn: r[4],
        constant: word_of(r[5], r[6], r[7], r[8]),
    }
}

#[tactic(auto, unfolding(crate::specs::Kinds::register_shift_from))]
pub fn register_shift_from(r: [u8; 9]) -> RegisterShiftFields
    ensures { RegisterShift result ≡ register_shift_from r }
{
    RegisterShiftFields {
        shift: Shift::from(r[1]),
        form: form_of(r[2]),
        rd: r[3],
        rn: r[4],
        rs: r[5],
    }
}

#[tactic(auto, unfolding(crate::specs::Kinds::add_number_from, little::specs::Little::little))]
pub fn add_number_from(r: [u8; 9]) -> AddNumberFields
    ensures { AddNumber result ≡ add_number_from r }
{
    AddNumberFields {
        op: AddOp::from(r[1]),
        form: form_of(r[2]),
        rd: r[3],
        rn: r[4],
        number: half_of(r[5], r[6]),
    }
}

#[tactic(auto, unfolding(crate::specs::Kinds::move_number_from, little::specs::Little::little))]
pub fn move_number_from(r: [u8; 9]) -> MoveNumberFields
    ensures { MoveNumber result ≡ move_number_from r }
{
    MoveNumberFields {
        op: MoveOp::from(r[1]),
        form: form_of(r[2]),
        rd: r[3],
        number: half_of(r[4], r[5]),
    }
}

#[tactic(auto, unfolding(crate::specs::Kinds::unary_from))]
pub fn unary_from(r: [u8; 9]) -> UnaryFields
    ensures { Unary result ≡ unary_from r }
{
    UnaryFields {
        op: UnaryOp::from(r[1]),
        form: form_of(r[2]),
        rd: r[3],
        rm: r[4],
    }
}

#[tactic(auto, unfolding(crate::specs::Kinds::multiply_from))]
pub fn multiply_from(r: [u8; 9]) -> MultiplyFields
    ensures { Multiply result ≡ multiply_from r }
{
    MultiplyFields {
        op: MultiplyOp::from(r[1]),
        form: form_of(r[2]),
        rd: r[3],
        rn: r[4],
        rm: r[5],
        ra: r[6],
    }
}

#[tactic(auto, unfolding(crate::specs::Kinds::long_multiply_from))]
pub fn long_multiply_from(r: [u8; 9]) -> LongMultiplyFields
    ensures { LongMultiply result ≡ long_multiply_from r }
{
    LongMultiplyFields {
        op: LongOp::from(r[1]),
        form: form_of(r[2]),
        low: r[3],
        high: r[4],
        rn: r[5],
        rm: r[6],
    }
}

#[tactic(auto, unfolding(crate::specs::Kinds::divide_from))]
pub fn divide_from(r: [u8; 9]) -> DivideFields
    ensures { Divide result ≡ divide_from r }
{
    DivideFields {
        op: DivideOp::from(r[1]),
        form: form_of(r[2]),
        rd: r[3],
        rn: r[4],
        rm: r[5],
    }
}

#[tactic(auto, unfolding(crate::specs::Kinds::saturate_from))]
pub fn saturate_from(r: [u8; 9]) -> SaturateFields
    ensures { Saturate result ≡ saturate_from r }
{
    SaturateFields {
        op: SaturateOp::from(r[1]),
        form: form_of(r[2]),
        rd: r[3],
        bits: r[4],
        rm: r[5],
        shift: Shift::from(r[6]),
        amount: r[7],
    }
}

#[tactic(auto, unfolding(crate::specs::Kinds::bit_field_from))]
pub fn bit_field_from(r: [u8; 9]) -> BitFieldFields
    ensures { BitField result ≡ bit_field_from r }
{
    BitFieldFields {
        op: FieldOp::from(r[1]),
        form: form_of(r[2]),
        rd: r[3],
        rn: r[4],
        lsb: r[5],
        width: r[6],
    }
}

#[tactic(auto, unfolding(crate::specs::Kinds::extend_from))]
pub fn extend_from(r: [u8; 9]) -> ExtendFields
    ensures { Extend result ≡ extend_from r }
{
    ExtendFields {
        op: ExtendOp::from(r[1]),
        form: form_of(r[2]),
        rd: r[3],
        rm: r[4],
        rotation: r[5],
    }
}

#[tactic(auto, unfolding(crate::specs::Kinds::access_from, little::specs::Little::little))]
pub fn access_from(r: [u8; 9]) -> AccessFields
    ensures { Access result ≡ access_from r }
{
    AccessFields {
        op: AccessOp::from(r[1]),
        form: form_of(r[2]),
        rt: r[3],
        rn: r[4],
        mode: Mode::from(r[5]),
        offset: word::signed_half_of(half_of(r[6], r[7])),
    }
}

#[tactic(auto, unfolding(crate::specs::Kinds::indexed_access_from))]
pub fn indexed_access_from(r: [u8; 9]) -> IndexedAccessFields
    ensures { IndexedAccess result ≡ indexed_access_from r }
{
    IndexedAccessFields {
        op: AccessOp::from(r[1]),
        form: form_of(r[2]),
        rt: r[3],
        rn: r[4],
        rm: r[5],
        amount: r[6],
    }
}

#[tactic(auto, unfolding(crate::specs::Kinds::dual_access_from, little::specs::Little::little))]
pub fn dual_access_from(r: [u8; 9]) -> DualAccessFields
    ensures { DualAccess result ≡ dual_access_from r }
{
    DualAccessFields {
        op: DualOp::from(r[1]),
        form: form_of(r[2]),
        rt: r[3],
        rt2: r[4],
        rn: r[5],
        mode: Mode::from(r[6]),
        offset: word::signed_half_of(half_of(r[7], r[8])),
    }
}

#[tactic(auto, unfolding(crate::specs::Kinds::multiple_access_from, little::specs::Little::little))]
pub fn multiple_access_from(r: [u8; 9]) -> MultipleAccessFields
    ensures { MultipleAccess result ≡ multiple_access_from r }
{
    MultipleAccessFields {
        op: MultipleOp::from(r[1]),
        form: form_of(r[2]),
        rn: r[3],
        writeback: word::bit_of(0, r[4] as u32),
        list: half_of(r[5], r[6]),
    }
}

#[tactic(auto, unfolding(crate::specs::Kinds::branch_from, little::specs::Little::little))]
pub fn branch_from(r: [u8; 9]) -> BranchFields
    ensures { Branch result ≡ branch_from r }
{
    BranchFields {
        op: BranchOp::from(r[1]),
        form: form_of(r[2]),
        condition: r[3],
        offset: word::signed_of(word_of(r[4], r[5], r[6], r[7])),
    }
}

#[tactic(auto, unfolding(crate::specs::Kinds::register_branch_from))]
pub fn register_branch_from(r: [u8; 9]) -> RegisterBranchFields
    ensures { RegisterBranch result ≡ register_branch_from r }
{
    RegisterBranchFields {
        op: RegisterOp::from(r[1]),
        form: form_of(r[2]),
        rm: r[3],
    }
}

#[tactic(auto, unfolding(crate::specs::Kinds::compare_branch_from))]
pub fn compare_branch_from(r: [u8; 9]) -> CompareBranchFields
    ensures { CompareBranch result ≡ compare_branch_from r }
{
    CompareBranchFields {
        op: CompareOp::from(r[1]),
        form: form_of(r[2]),
        rn: r[3],
        offset: r[4],
    }
}

#[tactic(auto, unfolding(crate::specs::Kinds::if_then_from))]
pub fn if_then_from(r: [u8; 9]) -> IfThenFields
    ensures { IfThen result ≡ if_then_from r }
{
    IfThenFields {
        form: form_of(r[1]),
        condition: r[2],
        count: r[3],
        elses: r[4],
    }
}

#[tactic(auto, unfolding(crate::specs::Kinds::table_branch_from))]
pub fn table_branch_from(r: [u8; 9]) -> TableBranchFields
    ensures { TableBranch result ≡ table_branch_from r }
{
    TableBranchFields {
        op: TableOp::from(r[1]),
        form: form_of(r[2]),
        rn: r[3],
        rm: r[4],
    }
}

// By the kind: the names in its row of the table.
const NAMES: [u8; 23] = [
    0, 16, 16, 4, 2, 2, 5, 3, 4, 2, 2, 4, 4, 8, 8, 2, 4, 2, 2, 2, 0, 0, 2,
];

// The listing bytes of a kind, 0 of one that there is not. A match is a table of the program; an array would be laid out anew at each call.
#[tactic(auto, unfolding(crate::specs::Kinds::listing_length))]
pub fn listing_length_of(kind: u8) -> u8
    ensures { result ≡ listing_length kind }
{
    match kind {
        0 => 0,
        1 => 8,
        2 => 9,
        3 => 6,
        4 => 7,
        5 => 6,
        6 => 5,
        7 => 7,
        8 => 7,
        9 => 6,
        10 => 8,
        11 => 7,
        12 => 6,
        13 => 8,
        14 => 7,
        15 => 9,
        16 => 7,
        17 => 8,
        18 => 4,
        19 => 5,
        20 => 5,
        21 => 2,
        22 => 5,
        23 => 3,
        _ => 0,
    }
}

#[tactic(auto, unfolding(crate::specs::Kinds::names))]
pub fn names_of(kind: u8) -> u8
    ensures { result ≡ names kind }
{
    let at = kind as usize;
    if at < 23 {
        return NAMES[at];
    }
    0
}

// The bytes of a record, and zeros after them.
pub fn nine_of(r: &[u8]) -> [u8; 9]
    ensures { result ≡ nine r.now }
{
    [
        little::byte_at(r, 0),
        little::byte_at(r, 1),
        little::byte_at(r, 2),
        little::byte_at(r, 3),
        little::byte_at(r, 4),
        little::byte_at(r, 5),
        little::byte_at(r, 6),
        little::byte_at(r, 7),
        little::byte_at(r, 8),
    ]
}
