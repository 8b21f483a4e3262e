// Addresses: the bits that R15 and a link have, and signed offsets.

#![tactic(auto)]

ghost use Rattle.std.specs.Prelude.{◌≡◌};
ghost use Rattle.address.specs.Address.{cleared, linked, moved};

pub fn even(x: u32) -> u32
    ensures { result ≡ cleared 0 x }
{
    x & 0xffff_fffe
}

pub fn word_base(x: u32) -> u32
    ensures { result ≡ cleared 1 x }
{
    x & 0xffff_fffd
}

pub fn link(x: u32) -> u32
    ensures { result ≡ linked x }
{
    x | 1
}

pub fn offset_by(x: u32, offset: i32) -> u32
    ensures { result ≡ moved x offset }
{
    x.wrapping_add_signed(offset)
}
