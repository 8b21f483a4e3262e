// Bytes, halves and words of a lent slice, little-endian; past its end there are zeros.

#![tactic(auto)]

ghost use Rattle.std.specs.Prelude.{◌≡◌};
ghost use Rattle.little.specs.Little.{byte, number_at};

pub fn byte_at(xs: &[u8], at: usize) -> u8
    ensures { result ≡ byte xs.now at }
{
    xs.get(at).copied().unwrap_or(0)
}

pub fn half_at(xs: &[u8], at: usize) -> u16
    ensures { result ≡ number_at 2 xs.now at }
{
    if xs.len() <= at {
        return 0;
    }
    u16::from_le_bytes([byte_at(xs, at), byte_at(xs, at + 1)])
}

pub fn word_at(xs: &[u8], at: usize) -> u32
    ensures { result ≡ number_at 4 xs.now at }
{
    if xs.len() <= at {
        return 0;
    }
    u32::from(half_at(xs, at + 2)) << 16 | u32::from(half_at(xs, at))
}
