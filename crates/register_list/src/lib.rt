// A register list: its members, and how many they are.

#![tactic(auto)]

ghost use Rattle.std.specs.Prelude.{◌≡◌};
ghost use Rattle.register_list.specs.List.{member, members_below};

pub fn holds(list: u16, register: u32) -> bool
    ensures { result ≡ member list register }
{
    word::bit_of(register, u32::from(list))
}

pub fn count(list: u16) -> u32
    ensures { result ≡ members_below 16 list }
{
    list.count_ones()
}

// The members among the registers below one.
pub fn count_below(list: u16, register: u32) -> u32
    ensures { result ≡ members_below register list }
{
    (u32::from(list) & word::ones(register)).count_ones()
}
