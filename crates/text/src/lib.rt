// The text of the program, by value; numbers and lines as text.

#![tactic(auto)]

ghost use Rattle.std.specs.Prelude.{◌≡◌, ◌<◌, ◌≤◌, [], length};
ghost use Rattle.text.specs.Text.{digit, decimal, hex};
ghost use Rattle.text.specs.Code.{appended};

use std::marker::Model;

pub mod lines;

// Its bytes, as a list in contracts. The longest text of a run, with two numbers of ten digits, has 242. Behind the text they are 0: so a text
// tells its fields, and can be copied, which the library's `ArrayVec` can't be.
#[derive(Clone, Copy)]
pub struct Text {
    bytes: [u8; 256],
    count: usize,
}

impl Model for Text {
    ghost use Rattle.std.specs.Prelude.{ℕ, List};

    ghost Value = { List ℕ };

    ghost use Rattle.std.specs.Prelude.{◌≡◌, length, take};
    ghost use Rattle.text.specs.Bytes.{IsText, bytes_of};
    ghost use Rattle.std.proofs.Common.{arith};
    ghost use Rattle.std.proofs.lemmas.List.{take-append-drop, length-take-le};

    ghost view = { λ t. take t.count t.bytes };

    ghost invariant = { λ t. IsText t.count t.bytes };

    ghost inverse = { λ xs. record { bytes = bytes_of xs; count = length xs } };

    ghost inverse_ok = { λ t h i. let n : length (take t.count t.bytes) ≡ t.count = length-take-le t.count t.bytes (omega (arith, h.all, h.within)) in
        let all : bytes_of (take t.count t.bytes) ≡ t.bytes = rw (n, ← h.behind) (take-append-drop t.count t.bytes) in
        record { bytes = all i; count = n i } };
}

impl Text {
    pub fn new() -> Self
        ensures { result ≡ [] }
    {
        Text {
            bytes: [0; 256],
            count: 0,
        }
    }

    pub fn as_slice(&self) -> &[u8]
        ensures value { result.now ≡ self.now }
        ensures fits { length result.now ≤ 256 }
    {
        &self.bytes[..self.count]
    }

    // What does not fit is cut off.
    #[tactic(auto, unfolding(crate::specs::Code::appended))]
    pub fn say(mut self, words: &[u8]) -> Self
        ensures { result ≡ appended self words.now }
    {
        let from = self.count;
        let more = words.len().min(256 - from);
        let to = from + more;
        self.bytes[from..to].copy_from_slice(&words[..more]);
        self.count = to;
        self
    }

    pub fn say_decimal(self, number: usize) -> Self
        ensures { result ≡ appended self (decimal number) }
    {
        let mut digits = [0u8; 10];
        let mut rest = number;
        for at in (0..10).rev() {
            digits[at] = digit_of(rest % 10);
            if rest < 10 {
                return self.say(&digits[at..]);
            }
            rest /= 10;
        }
        self.say(&digits)
    }

    pub fn say_hex(self, word: u32) -> Self
        ensures { result ≡ appended self (hex word) }
    {
        let w = word as usize;
        let digits = [
            digit_of((w >> 28) % 16),
            digit_of((w >> 24) % 16),
            digit_of((w >> 20) % 16),
            digit_of((w >> 16) % 16),
            digit_of((w >> 12) % 16),
            digit_of((w >> 8) % 16),
            digit_of((w >> 4) % 16),
            digit_of(w % 16),
        ];
        self.say(&digits)
    }
}

fn digit_of(d: usize) -> u8
    requires { d < 16 }
    ensures { result ≡ digit d }
{
    let digits = b"0123456789ABCDEF";
    digits[d]
}
