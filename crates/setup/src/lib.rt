// What is fixed for a rehearsal, and the memory that it allows.

#![tactic(auto)]

ghost use Rattle.std.specs.Prelude.{◌≡◌};
ghost use Rattle.setup.specs.Setup.{at_base, fits};

#[derive(Clone, Copy, Debug, PartialEq, Eq)]
pub struct Setup {
    // the address of memory's first byte
    pub base: u32,
}

impl Setup {
    // Every setup is made here.
    pub fn new(base: u32) -> Self
        ensures { result ≡ at_base base }
    {
        Setup { base }
    }
}

// Is memory within its limit and not past 2^32?
#[tactic(auto, unfolding(crate::specs::Setup::fits))]
pub fn is_fit(memory: &[u8], setup: Setup) -> bool
    ensures { result ≡ fits setup memory.now }
{
    let size = memory.len();
    (size <= 1_048_576) & (setup.base as usize + size <= 0x1_0000_0000)
}
