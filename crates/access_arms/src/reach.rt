// What an access does, and where.

ghost use Rattle.std.specs.Prelude.{◌<◌};

use record::op::AccessOp;

// The base that is written back: Rn, and its new value.
#[derive(Clone, Copy)]
pub struct Back {
    pub rn: u8,
    pub to: u32,
    ghost rn_small: { rn < 16 },
}

// An access of one register. A plain one writes nothing back.
#[derive(Clone, Copy)]
pub struct Reach {
    pub op: AccessOp,
    pub back: Option<Back>,
    pub rt: u8,
    pub address: u32,
    ghost rt_small: { rt < 16 },
}
