// The bytes of a record by value, as `kinds` reads them.

ghost use Rattle.std.specs.Prelude.{◌≡◌, ◌≤◌, length};
ghost use Rattle.lent.specs.Lent.{byte_below, first};

// As many as its kind has, which the caller knows to be there, and zeros after them.
pub fn first<const N: usize>(r: &[u8]) -> [u8; 9]
    requires { N ≤ length r.now }
    ensures { result ≡ first N r.now }
{
    [
        byte::<N>(r, 0),
        byte::<N>(r, 1),
        byte::<N>(r, 2),
        byte::<N>(r, 3),
        byte::<N>(r, 4),
        byte::<N>(r, 5),
        byte::<N>(r, 6),
        byte::<N>(r, 7),
        byte::<N>(r, 8),
    ]
}

fn byte<const N: usize>(r: &[u8], at: usize) -> u8
    requires { N ≤ length r.now }
    ensures { result ≡ byte_below N r.now at }
{
    if at < N { r[at] } else { 0 }
}
