// A record: one decoded instruction, a variant for each kind. It keeps every field that its bytes have.

#![tactic(auto)]

mod code;
pub mod op;
pub mod register;

use crate::op::{
    AccessOp, AddOp, BranchOp, CompareOp, DataOp, DivideOp, DualOp, ExtendOp, FieldOp, LongOp,
    Mode, MoveOp, MultipleOp, MultiplyOp, RegisterOp, SaturateOp, Shift, TableOp, UnaryOp,
};

// The form byte: does it set the flags, and is it 4 machine bytes long and not 2?
#[derive(Clone, Copy)]
pub struct Form {
    pub s: bool,
    pub wide: bool,
}

// 01
#[derive(Clone, Copy)]
pub struct ShiftedRegisterFields {
    pub op: DataOp,
    pub form: Form,
    pub rd: u8,
    pub rn: u8,
    pub rm: u8,
    pub shift: Shift,
    pub amount: u8,
}

// 02
#[derive(Clone, Copy)]
pub struct ConstantFields {
    pub op: DataOp,
    pub form: Form,
    pub rd: u8,
    pub rn: u8,
    pub constant: u32,
}

// 03: Rn shifted by the number in Rs
#[derive(Clone, Copy)]
pub struct RegisterShiftFields {
    pub shift: Shift,
    pub form: Form,
    pub rd: u8,
    pub rn: u8,
    pub rs: u8,
}

// 04
#[derive(Clone, Copy)]
pub struct AddNumberFields {
    pub op: AddOp,
    pub form: Form,
    pub rd: u8,
    pub rn: u8,
    pub number: u16,
}

// 05
#[derive(Clone, Copy)]
pub struct MoveNumberFields {
    pub op: MoveOp,
    pub form: Form,
    pub rd: u8,
    pub number: u16,
}

// 06
#[derive(Clone, Copy)]
pub struct UnaryFields {
    pub op: UnaryOp,
    pub form: Form,
    pub rd: u8,
    pub rm: u8,
}

// 07
#[derive(Clone, Copy)]
pub struct MultiplyFields {
    pub op: MultiplyOp,
    pub form: Form,
    pub rd: u8,
    pub rn: u8,
    pub rm: u8,
    pub ra: u8,
}

// 08
#[derive(Clone, Copy)]
pub struct LongMultiplyFields {
    pub op: LongOp,
    pub form: Form,
    pub low: u8,
    pub high: u8,
    pub rn: u8,
    pub rm: u8,
}

// 09
#[derive(Clone, Copy)]
pub struct DivideFields {
    pub op: DivideOp,
    pub form: Form,
    pub rd: u8,
    pub rn: u8,
    pub rm: u8,
}

// 0A
#[derive(Clone, Copy)]
pub struct SaturateFields {
    pub op: SaturateOp,
    pub form: Form,
    pub rd: u8,
    pub bits: u8,
    pub rm: u8,
    pub shift: Shift,
    pub amount: u8,
}

// 0B
#[derive(Clone, Copy)]
pub struct BitFieldFields {
    pub op: FieldOp,
    pub form: Form,
    pub rd: u8,
    pub rn: u8,
    pub lsb: u8,
    pub width: u8,
}

// 0C
#[derive(Clone, Copy)]
pub struct ExtendFields {
    pub op: ExtendOp,
    pub form: Form,
    pub rd: u8,
    pub rm: u8,
    pub rotation: u8,
}

// 0D
#[derive(Clone, Copy)]
pub struct AccessFields {
    pub op: AccessOp,
    pub form: Form,
    pub rt: u8,
    pub rn: u8,
    pub mode: Mode,
    pub offset: i16,
}

// 0E: the offset is Rm shifted left
#[derive(Clone, Copy)]
pub struct IndexedAccessFields {
    pub op: AccessOp,
    pub form: Form,
    pub rt: u8,
    pub rn: u8,
    pub rm: u8,
    pub amount: u8,
}

// 0F
#[derive(Clone, Copy)]
pub struct DualAccessFields {
    pub op: DualOp,
    pub form: Form,
    pub rt: u8,
    pub rt2: u8,
    pub rn: u8,
    pub mode: Mode,
    pub offset: i16,
}

// 10
#[derive(Clone, Copy)]
pub struct MultipleAccessFields {
    pub op: MultipleOp,
    pub form: Form,
    pub rn: u8,
    pub writeback: bool,
    pub list: u16,
}

// 11
#[derive(Clone, Copy)]
pub struct BranchFields {
    pub op: BranchOp,
    pub form: Form,
    pub condition: u8,
    pub offset: i32,
}

// 12
#[derive(Clone, Copy)]
pub struct RegisterBranchFields {
    pub op: RegisterOp,
    pub form: Form,
    pub rm: u8,
}

// 13
#[derive(Clone, Copy)]
pub struct CompareBranchFields {
    pub op: CompareOp,
    pub form: Form,
    pub rn: u8,
    pub offset: u8,
}

// 14
#[derive(Clone, Copy)]
pub struct IfThenFields {
    pub form: Form,
    pub condition: u8,
    pub count: u8,
    pub elses: u8,
}

// 16
#[derive(Clone, Copy)]
pub struct TableBranchFields {
    pub op: TableOp,
    pub form: Form,
    pub rn: u8,
    pub rm: u8,
}

#[derive(Clone, Copy)]
pub enum Record {
    ShiftedRegister(ShiftedRegisterFields),
    Constant(ConstantFields),
    RegisterShift(RegisterShiftFields),
    AddNumber(AddNumberFields),
    MoveNumber(MoveNumberFields),
    Unary(UnaryFields),
    Multiply(MultiplyFields),
    LongMultiply(LongMultiplyFields),
    Divide(DivideFields),
    Saturate(SaturateFields),
    BitField(BitFieldFields),
    Extend(ExtendFields),
    Access(AccessFields),
    IndexedAccess(IndexedAccessFields),
    DualAccess(DualAccessFields),
    MultipleAccess(MultipleAccessFields),
    Branch(BranchFields),
    RegisterBranch(RegisterBranchFields),
    CompareBranch(CompareBranchFields),
    IfThen(IfThenFields),
    Nop(Form),
    TableBranch(TableBranchFields),
    // 17: its machine bytes
    Filler(u16),
}
