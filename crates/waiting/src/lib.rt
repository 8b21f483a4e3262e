// The waiting conditions: those of a block that are still to be used.

#![tactic(auto)]

ghost use Rattle.std.specs.Prelude.{◌≡◌};
ghost use Rattle.waiting.specs.Waiting.{nothing, waiting_count, dropped, inverse, placed, block, same, good_place, good_waiting};

// A place that holds no condition is 15, as in the definitions `none` and `nothing`, on which the theorems of the layout stand: no Option.
#[derive(Clone, Copy, PartialEq, Eq)]
pub struct Waiting {
    pub first: u8,
    pub second: u8,
    pub third: u8,
    pub fourth: u8,
}

impl Waiting {
    pub const NONE: u8 = 15;

    pub fn nothing() -> Self
        ensures { result ≡ nothing }
    {
        Waiting {
            first: Waiting::NONE,
            second: Waiting::NONE,
            third: Waiting::NONE,
            fourth: Waiting::NONE,
        }
    }

    #[tactic(auto, unfolding(crate::specs::Waiting::waiting_count))]
    pub fn count(self) -> u32
        ensures { result ≡ waiting_count self }
    {
        if self.first == Waiting::NONE {
            return 0;
        }
        if self.second == Waiting::NONE {
            return 1;
        }
        if self.third == Waiting::NONE {
            return 2;
        }
        if self.fourth == Waiting::NONE {
            return 3;
        }
        4
    }

    #[tactic(auto, unfolding(crate::specs::Waiting::dropped))]
    pub fn drop_first(self) -> Self
        ensures { result ≡ dropped self }
    {
        Waiting {
            first: self.second,
            second: self.third,
            third: self.fourth,
            fourth: Waiting::NONE,
        }
    }

    // `==` by its name in the definitions, `same`, which the theorems on runs speak of.
    #[tactic(auto, unfolding(crate::specs::Waiting::same))]
    pub fn is_same(self, other: Waiting) -> bool
        ensures { result ≡ same self other }
    {
        self == other
    }

    // Is it a list that a good machine may have?
    #[tactic(auto, unfolding(crate::specs::Waiting::good_waiting))]
    pub fn is_good(self) -> bool
        ensures { result ≡ good_waiting self }
    {
        (self.first <= Waiting::NONE)
            & is_good_place(self.first, self.first, self.second)
            & is_good_place(self.first, self.second, self.third)
            & is_good_place(self.first, self.third, self.fourth)
    }

    // The block that an IT record opens.
    #[tactic(auto, unfolding(crate::specs::Waiting::block))]
    pub fn block_of(condition: u8, count: u8, elses: u8) -> Self
        ensures { result ≡ block condition count elses }
    {
        let bits = elses as u32;
        Waiting {
            first: place(1 <= count, condition, false),
            second: place(2 <= count, condition, word::bit_of(0, bits)),
            third: place(3 <= count, condition, word::bit_of(1, bits)),
            fourth: place(4 <= count, condition, word::bit_of(2, bits)),
        }
    }
}

fn place(within: bool, condition: u8, otherwise: bool) -> u8
    ensures { result ≡ placed within condition otherwise }
{
    if !within {
        Waiting::NONE
    } else if otherwise {
        inverse_of(condition)
    } else {
        condition
    }
}

#[tactic(auto, unfolding(crate::specs::Waiting::inverse))]
pub fn inverse_of(condition: u8) -> u8
    ensures { result ≡ inverse condition }
{
    condition ^ 1
}

fn is_good_place(first: u8, before: u8, condition: u8) -> bool
    ensures { result ≡ good_place first before condition }
{
    let agrees = (condition <= 14) & ((condition == first) | (condition == inverse_of(first)));
    (condition == Waiting::NONE) | (before != Waiting::NONE) & agrees
}
