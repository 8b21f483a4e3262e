// The form byte, and numbers of two and four bytes, the lowest first.

ghost use Rattle.std.specs.Prelude.{◌≡◌, [], ◌∷◌};
ghost use Rattle.little.specs.Little.{number_at};
ghost use Rattle.kinds.specs.Kinds.{form};

use record::Form;

#[tactic(auto, unfolding(crate::specs::Kinds::form))]
pub fn form_of(bits: u8) -> Form
    ensures { result ≡ form bits }
{
    Form {
        s: word::bit_of(0, bits as u32),
        wide: word::bit_of(1, bits as u32),
    }
}

pub fn half_of(low: u8, high: u8) -> u16
    ensures { result ≡ number_at 2 (low ∷ high ∷ []) 0 }
{
    (high as u16) << 8 | low as u16
}

#[tactic(auto, unfolding(little::specs::Little::little))]
pub fn word_of(a: u8, b: u8, c: u8, d: u8) -> u32
    ensures { result ≡ number_at 4 (a ∷ b ∷ c ∷ d ∷ []) 0 }
{
    (half_of(c, d) as u32) << 16 | half_of(a, b) as u32
}
