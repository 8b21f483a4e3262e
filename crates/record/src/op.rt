// The operations, shifts and modes that a record names, each by the number that stands for it.

ghost use Rattle.std.specs.Prelude.{◌≡◌};
ghost use Rattle.record.specs.Op.{data_code, is_lsl, is_mul, loads, loads_dual, loads_many, is_bl, is_blx, is_offset, is_ldr};

// The operations of kinds 01 and 02.
#[derive(Clone, Copy, PartialEq, Eq)]
pub enum DataOp {
    Add,
    Adc,
    Sub,
    Sbc,
    Rsb,
    And,
    Orr,
    Eor,
    Bic,
    Orn,
    Mov,
    Mvn,
    Cmp,
    Cmn,
    Tst,
    Teq,
}

impl DataOp {
    // its number in the table of kinds 01 and 02
    pub fn code(self) -> u8
        ensures { result ≡ data_code self }
    {
        self as u8
    }
}

#[derive(Clone, Copy, PartialEq, Eq)]
pub enum Shift {
    Lsl,
    Lsr,
    Asr,
    Ror,
    Rrx,
}

impl Shift {
    pub fn is_lsl(self) -> bool
        ensures { result ≡ is_lsl self }
    {
        matches!(self, Shift::Lsl)
    }
}

// Kind 04.
#[derive(Clone, Copy, PartialEq, Eq)]
pub enum AddOp {
    Addw,
    Subw,
}

// Kind 05.
#[derive(Clone, Copy, PartialEq, Eq)]
pub enum MoveOp {
    Movw,
    Movt,
}

// Kind 06.
#[derive(Clone, Copy, PartialEq, Eq)]
pub enum UnaryOp {
    Clz,
    Rev,
    Rev16,
    Revsh,
    Rbit,
}

// Kind 07.
#[derive(Clone, Copy, PartialEq, Eq)]
pub enum MultiplyOp {
    Mul,
    Mla,
    Mls,
}

impl MultiplyOp {
    pub fn is_mul(self) -> bool
        ensures { result ≡ is_mul self }
    {
        matches!(self, MultiplyOp::Mul)
    }
}

// Kind 08.
#[derive(Clone, Copy, PartialEq, Eq)]
pub enum LongOp {
    Umull,
    Umlal,
    Smull,
    Smlal,
}

// Kind 09.
#[derive(Clone, Copy, PartialEq, Eq)]
pub enum DivideOp {
    Sdiv,
    Udiv,
}

// Kind 0A.
#[derive(Clone, Copy, PartialEq, Eq)]
pub enum SaturateOp {
    Ssat,
    Usat,
}

// Kind 0B.
#[derive(Clone, Copy, PartialEq, Eq)]
pub enum FieldOp {
    Bfc,
    Bfi,
    Sbfx,
    Ubfx,
}

// Kind 0C.
#[derive(Clone, Copy, PartialEq, Eq)]
pub enum ExtendOp {
    Sxtb,
    Sxth,
    Uxtb,
    Uxth,
}

// Kinds 0D and 0E.
#[derive(Clone, Copy, PartialEq, Eq)]
pub enum AccessOp {
    Ldr,
    Ldrb,
    Ldrh,
    Ldrsb,
    Ldrsh,
    Str,
    Strb,
    Strh,
}

impl AccessOp {
    pub fn loads(self) -> bool
        ensures { result ≡ loads self }
    {
        matches!(
            self,
            AccessOp::Ldr | AccessOp::Ldrb | AccessOp::Ldrh | AccessOp::Ldrsb | AccessOp::Ldrsh
        )
    }

    pub fn is_ldr(self) -> bool
        ensures { result ≡ is_ldr self }
    {
        matches!(self, AccessOp::Ldr)
    }
}

// Kind 0F.
#[derive(Clone, Copy, PartialEq, Eq)]
pub enum DualOp {
    Ldrd,
    Strd,
}

impl DualOp {
    pub fn loads(self) -> bool
        ensures { result ≡ loads_dual self }
    {
        matches!(self, DualOp::Ldrd)
    }
}

// Kind 10.
#[derive(Clone, Copy, PartialEq, Eq)]
pub enum MultipleOp {
    Ldmia,
    Ldmdb,
    Stmia,
    Stmdb,
}

impl MultipleOp {
    pub fn loads(self) -> bool
        ensures { result ≡ loads_many self }
    {
        matches!(self, MultipleOp::Ldmia | MultipleOp::Ldmdb)
    }
}

// Kind 11.
#[derive(Clone, Copy, PartialEq, Eq)]
pub enum BranchOp {
    B,
    Bl,
}

impl BranchOp {
    pub fn is_bl(self) -> bool
        ensures { result ≡ is_bl self }
    {
        matches!(self, BranchOp::Bl)
    }
}

// Kind 12.
#[derive(Clone, Copy, PartialEq, Eq)]
pub enum RegisterOp {
    Bx,
    Blx,
}

impl RegisterOp {
    pub fn is_blx(self) -> bool
        ensures { result ≡ is_blx self }
    {
        matches!(self, RegisterOp::Blx)
    }
}

// Kind 13.
#[derive(Clone, Copy, PartialEq, Eq)]
pub enum CompareOp {
    Cbz,
    Cbnz,
}

// Kind 16.
#[derive(Clone, Copy, PartialEq, Eq)]
pub enum TableOp {
    Tbb,
    Tbh,
}

#[derive(Clone, Copy, PartialEq, Eq)]
pub enum Mode {
    Offset,
    PreIndexed,
    PostIndexed,
}

impl Mode {
    pub fn is_offset(self) -> bool
        ensures { result ≡ is_offset self }
    {
        matches!(self, Mode::Offset)
    }
}
