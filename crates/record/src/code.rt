// The operations, shifts and modes by the numbers that stand for them. A number past a row stands for none: the reading refuses it before,
// and the last name is given here.

ghost use Rattle.std.specs.Prelude.{◌≡◌};
ghost use Rattle.record.specs.Op.{data_op, shift, add_op, move_op, unary_op, multiply_op, long_op, divide_op, saturate_op, field_op, extend_op, access_op, dual_op, multiple_op, branch_op, register_op, compare_op, table_op, mode};

use crate::op::{
    AccessOp, AddOp, BranchOp, CompareOp, DataOp, DivideOp, DualOp, ExtendOp, FieldOp, LongOp,
    Mode, MoveOp, MultipleOp, MultiplyOp, RegisterOp, SaturateOp, Shift, TableOp, UnaryOp,
};

impl From<u8> for DataOp {
    ghost from_gives = { λ code op. op ≡ data_op code };

    fn from(code: u8) -> Self {
        match code {
            0 => DataOp::Add,
            1 => DataOp::Adc,
            2 => DataOp::Sub,
            3 => DataOp::Sbc,
            4 => DataOp::Rsb,
            5 => DataOp::And,
            6 => DataOp::Orr,
            7 => DataOp::Eor,
            8 => DataOp::Bic,
            9 => DataOp::Orn,
            10 => DataOp::Mov,
            11 => DataOp::Mvn,
            12 => DataOp::Cmp,
            13 => DataOp::Cmn,
            14 => DataOp::Tst,
            _ => DataOp::Teq,
        }
    }
}

impl From<u8> for Shift {
    ghost from_gives = { λ code op. op ≡ shift code };

    fn from(code: u8) -> Self {
        match code {
            0 => Shift::Lsl,
            1 => Shift::Lsr,
            2 => Shift::Asr,
            3 => Shift::Ror,
            _ => Shift::Rrx,
        }
    }
}

impl From<u8> for AddOp {
    ghost from_gives = { λ code op. op ≡ add_op code };

    fn from(code: u8) -> Self {
        match code {
            0 => AddOp::Addw,
            _ => AddOp::Subw,
        }
    }
}

impl From<u8> for MoveOp {
    ghost from_gives = { λ code op. op ≡ move_op code };

    fn from(code: u8) -> Self {
        match code {
            0 => MoveOp::Movw,
            _ => MoveOp::Movt,
        }
    }
}

impl From<u8> for UnaryOp {
    ghost from_gives = { λ code op. op ≡ unary_op code };

    fn from(code: u8) -> Self {
        match code {
            0 => UnaryOp::Clz,
            1 => UnaryOp::Rev,
            2 => UnaryOp::Rev16,
            3 => UnaryOp::Revsh,
            _ => UnaryOp::Rbit,
        }
    }
}

impl From<u8> for MultiplyOp {
    ghost from_gives = { λ code op. op ≡ multiply_op code };

    fn from(code: u8) -> Self {
        match code {
            0 => MultiplyOp::Mul,
            1 => MultiplyOp::Mla,
            _ => MultiplyOp::Mls,
        }
    }
}

impl From<u8> for LongOp {
    ghost from_gives = { λ code op. op ≡ long_op code };

    fn from(code: u8) -> Self {
        match code {
            0 => LongOp::Umull,
            1 => LongOp::Umlal,
            2 => LongOp::Smull,
            _ => LongOp::Smlal,
        }
    }
}

impl From<u8> for DivideOp {
    ghost from_gives = { λ code op. op ≡ divide_op code };

    fn from(code: u8) -> Self {
        match code {
            0 => DivideOp::Sdiv,
            _ => DivideOp::Udiv,
        }
    }
}

impl From<u8> for SaturateOp {
    ghost from_gives = { λ code op. op ≡ saturate_op code };

    fn from(code: u8) -> Self {
        match code {
            0 => SaturateOp::Ssat,
            _ => SaturateOp::Usat,
        }
    }
}

impl From<u8> for FieldOp {
    ghost from_gives = { λ code op. op ≡ field_op code };

    fn from(code: u8) -> Self {
        match code {
            0 => FieldOp::Bfc,
            1 => FieldOp::Bfi,
            2 => FieldOp::Sbfx,
            _ => FieldOp::Ubfx,
        }
    }
}

impl From<u8> for ExtendOp {
    ghost from_gives = { λ code op. op ≡ extend_op code };

    fn from(code: u8) -> Self {
        match code {
            0 => ExtendOp::Sxtb,
            1 => ExtendOp::Sxth,
            2 => ExtendOp::Uxtb,
            _ => ExtendOp::Uxth,
        }
    }
}

impl From<u8> for AccessOp {
    ghost from_gives = { λ code op. op ≡ access_op code };

    fn from(code: u8) -> Self {
        match code {
            0 => AccessOp::Ldr,
            1 => AccessOp::Ldrb,
            2 => AccessOp::Ldrh,
            3 => AccessOp::Ldrsb,
            4 => AccessOp::Ldrsh,
            5 => AccessOp::Str,
            6 => AccessOp::Strb,
            _ => AccessOp::Strh,
        }
    }
}

impl From<u8> for DualOp {
    ghost from_gives = { λ code op. op ≡ dual_op code };

    fn from(code: u8) -> Self {
        match code {
            0 => DualOp::Ldrd,
            _ => DualOp::Strd,
        }
    }
}

impl From<u8> for MultipleOp {
    ghost from_gives = { λ code op. op ≡ multiple_op code };

    fn from(code: u8) -> Self {
        match code {
            0 => MultipleOp::Ldmia,
            1 => MultipleOp::Ldmdb,
            2 => MultipleOp::Stmia,
            _ => MultipleOp::Stmdb,
        }
    }
}

impl From<u8> for BranchOp {
    ghost from_gives = { λ code op. op ≡ branch_op code };

    fn from(code: u8) -> Self {
        match code {
            0 => BranchOp::B,
            _ => BranchOp::Bl,
        }
    }
}

impl From<u8> for RegisterOp {
    ghost from_gives = { λ code op. op ≡ register_op code };

    fn from(code: u8) -> Self {
        match code {
            0 => RegisterOp::Bx,
            _ => RegisterOp::Blx,
        }
    }
}

impl From<u8> for CompareOp {
    ghost from_gives = { λ code op. op ≡ compare_op code };

    fn from(code: u8) -> Self {
        match code {
            0 => CompareOp::Cbz,
            _ => CompareOp::Cbnz,
        }
    }
}

impl From<u8> for TableOp {
    ghost from_gives = { λ code op. op ≡ table_op code };

    fn from(code: u8) -> Self {
        match code {
            0 => TableOp::Tbb,
            _ => TableOp::Tbh,
        }
    }
}

impl From<u8> for Mode {
    ghost from_gives = { λ code op. op ≡ mode code };

    fn from(code: u8) -> Self {
        match code {
            0 => Mode::Offset,
            1 => Mode::PreIndexed,
            _ => Mode::PostIndexed,
        }
    }
}
