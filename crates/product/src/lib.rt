// MUL MLA MLS modulo 2^32; UMULL UMLAL SMULL SMLAL as 64 bits in two words.

#![tactic(auto)]

ghost use Rattle.std.specs.Prelude.{◌≡◌, ◌*◌, ◌*ℤ◌};
ghost use Rattle.word.specs.Word.{signed, wrapped};
ghost use Rattle.product.specs.Product.{MUL, MLA, MLS, halves, whole, UMULL, UMLAL, SMULL, SMLAL};

#[derive(Clone, Copy, Debug, PartialEq, Eq)]
pub struct Long {
    pub low: u32,
    pub high: u32,
}

#[tactic(auto, unfolding(crate::specs::Product::MUL))]
pub fn mul(x: u32, y: u32) -> u32
    ensures { result ≡ MUL x y }
{
    x.wrapping_mul(y)
}

#[tactic(auto, unfolding(crate::specs::Product::MUL, crate::specs::Product::MLA))]
pub fn mla(x: u32, y: u32, a: u32) -> u32
    ensures { result ≡ MLA x y a }
{
    a.wrapping_add(mul(x, y))
}

pub fn mls(x: u32, y: u32, a: u32) -> u32
    ensures { result ≡ MLS x y a }
{
    a.wrapping_sub(mul(x, y))
}

#[tactic(auto, unfolding(crate::specs::Product::UMULL))]
pub fn umull(x: u32, y: u32) -> Long
    ensures { result ≡ UMULL x y }
{
    halves_of(product(x, y))
}

#[tactic(auto, unfolding(crate::specs::Product::UMLAL))]
pub fn umlal(x: u32, y: u32, a: Long) -> Long
    ensures { result ≡ UMLAL x y a }
{
    halves_of(whole_of(a).wrapping_add(product(x, y)))
}

#[tactic(auto, unfolding(crate::specs::Product::SMULL))]
pub fn smull(x: u32, y: u32) -> Long
    ensures { result ≡ SMULL x y }
{
    halves_of(signed_product(x, y))
}

pub fn smlal(x: u32, y: u32, a: Long) -> Long
    ensures { result ≡ SMLAL x y a }
{
    halves_of(whole_of(a).wrapping_add(signed_product(x, y)))
}

pub fn halves_of(number: u64) -> Long
    ensures { result ≡ halves number }
{
    Long {
        low: (number & 0xffff_ffff) as u32,
        high: (number >> 32) as u32,
    }
}

pub fn whole_of(a: Long) -> u64
    ensures { result ≡ whole a }
{
    u64::from(a.high) << 32 | u64::from(a.low)
}

fn product(x: u32, y: u32) -> u64
    ensures { result ≡ x * y }
{
    u64::from(x) * u64::from(y)
}

// The bits of the signed product, which always fits 64 of them.
fn signed_product(x: u32, y: u32) -> u64
    ensures { result ≡ wrapped 64 (signed x *ℤ signed y) }
{
    word::unsigned_long_of(i64::from(word::signed_of(x)) * i64::from(word::signed_of(y)))
}
