// Why a step, a listing or a run is refused, each with its number.

#![tactic(auto)]

ghost use Rattle.std.specs.Prelude.{◌≡◌};
ghost use Rattle.refusal.specs.Refusal.{number, number_of};

// 8 and 10 are no refusals: a run ends with them.
#[derive(Clone, Copy, Debug, PartialEq, Eq)]
pub enum Refusal {
    // 1: the machine is not good, or memory or the listing is not within its limits
    Unfit,
    // 2: the bytes are no record
    Unreadable,
    // 3
    Restricted,
    // 4: not where so many conditions wait
    Misplaced,
    // 5
    Unaligned,
    // 6: a byte that is not in memory
    Outside,
    // 7: a value that R13 or R15 can't take
    Unsteady,
    // 9: a direct branch that goes to no landing place
    Astray,
}

impl From<Refusal> for u32 {
    ghost from_gives = { λ refusal n. n ≡ number refusal };

    fn from(refusal: Refusal) -> u32 {
        match refusal {
            Refusal::Unfit => 1,
            Refusal::Unreadable => 2,
            Refusal::Restricted => 3,
            Refusal::Misplaced => 4,
            Refusal::Unaligned => 5,
            Refusal::Outside => 6,
            Refusal::Unsteady => 7,
            Refusal::Astray => 9,
        }
    }
}

// 0 where nothing is refused.
pub fn number_of(answer: Result<(), Refusal>) -> u32
    ensures { result ≡ number_of answer }
{
    match answer {
        Ok(()) => 0,
        Err(refusal) => u32::from(refusal),
    }
}
