// Leading zeros counted; bytes and bits in reverse order.

#![tactic(auto)]

ghost use Rattle.std.specs.Prelude.{ℕ, ◌+◌, ◌-◌, ◌*◌, ◌^◌, ◌<◌, ◌≡◌};
ghost use Rattle.std.specs.Int.Bits.{bit_xor};
ghost use Rattle.word.specs.Word.{bit};
ghost use Rattle.reverse.specs.Reverse.{CLZ, REV, REV16, REVSH, RBIT};

pub fn clz(x: u32) -> u32
    ensures { result ≡ CLZ x }
{
    x.leading_zeros()
}

// The bytes of each half exchanged, and then the halves.
#[tactic(auto, unfolding(shift::specs::Shift::rotated, crate::specs::Reverse::REV16, crate::specs::Reverse::REV))]
pub fn rev(x: u32) -> u32
    ensures { result ≡ REV x }
{
    shift::rotate_right(rev16(x), 16)
}

pub fn rev16(x: u32) -> u32
    ensures { result ≡ REV16 x }
{
    ((x & 0x00ff_00ff) << 8) | ((x >> 8) & 0x00ff_00ff)
}

#[tactic(auto, unfolding(crate::specs::Reverse::REVSH))]
pub fn revsh(x: u32) -> u32
    ensures { result ≡ REVSH x }
{
    field::sbfx(rev16(x), 0, 16)
}

// By swaps, as order 3 (docs/orders/03.md) has it, and not by the library's `reverse_bits`: halves exchanged, then the bytes of each half, and so
// on down to neighbouring bits.
pub fn rbit(x: u32) -> u32
    ensures { result ≡ RBIT x }
{
    let halves = swap(x, 16, 0x0000_ffff);
    let bytes = swap(halves, 8, 0x00ff_00ff);
    let nibbles = swap(bytes, 4, 0x0f0f_0f0f);
    let pairs = swap(nibbles, 2, 0x3333_3333);
    swap(pairs, 1, 0x5555_5555)
}

// Each field of `width` bits exchanged with its neighbour. The mask has every second field, the lowest first: with itself one
// field higher it is all 32 bits.
fn swap(x: u32, width: u32, mask: u32) -> u32
    requires { mask * (2 ^ width + 1) ≡ 2 ^ 32 - 1 }
    ensures { (i : ℕ) → i < 32 → bit i result ≡ bit (bit_xor i width) x }
{
    ((x & mask) << width) | ((x >> width) & mask)
}
