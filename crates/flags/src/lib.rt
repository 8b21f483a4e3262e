// The flags, and the conditions that are asked of them.

#![tactic(auto)]

ghost use Rattle.std.specs.Prelude.{◌≡◌};
ghost use Rattle.flags.specs.Flags.{clear, passes, signs, all_four, saturating};

use sum::Sum;

#[derive(Clone, Copy, Debug, Default, PartialEq, Eq)]
pub struct Flags {
    pub n: bool,
    pub z: bool,
    pub c: bool,
    pub v: bool,
    pub q: bool,
}

impl Flags {
    pub fn none_set() -> Self
        ensures { result ≡ clear }
    {
        Self::default()
    }

    // Whatever is no condition passes: there is none to fail.
    #[tactic(auto, unfolding(crate::specs::Flags::passes))]
    pub fn pass(self, condition: u8) -> bool
        ensures { result ≡ passes self condition }
    {
        match condition {
            0 => self.z,
            1 => !self.z,
            2 => self.c,
            3 => !self.c,
            4 => self.n,
            5 => !self.n,
            6 => self.v,
            7 => !self.v,
            8 => self.c & !self.z,
            9 => !self.c | self.z,
            10 => self.n == self.v,
            11 => self.n != self.v,
            12 => !self.z & (self.n == self.v),
            13 => self.z | (self.n != self.v),
            14 => true,
            _ => true,
        }
    }

    #[tactic(auto, unfolding(crate::specs::Flags::signs))]
    pub fn with_signs(self, value: u32) -> Self
        ensures { result ≡ signs value self }
    {
        Flags {
            n: 0x8000_0000 <= value,
            z: value == 0,
            ..self
        }
    }

    #[tactic(auto, unfolding(crate::specs::Flags::all_four))]
    pub fn with_all(self, sum: Sum) -> Self
        ensures { result ≡ all_four sum self }
    {
        Flags {
            n: 0x8000_0000 <= sum.value,
            z: sum.value == 0,
            c: sum.carry,
            v: sum.overflow,
            ..self
        }
    }

    #[tactic(auto, unfolding(crate::specs::Flags::saturating))]
    pub fn with_saturation(self, saturated: bool) -> Self
        ensures { result ≡ saturating saturated self }
    {
        Flags {
            q: self.q | saturated,
            ..self
        }
    }
}
