// How a value passes through C: as so many numbers, in an order of its own (include/nuorpyts.h); and how an answer goes into a slice.
ghost use Rattle.std.specs.Prelude.{◌≡◌, ℕ, ◌*◌, ◌^◌, ◌<◌, List, [], ◌∷◌};
ghost use lib.Dec.{lit<};
ghost use Rattle.answers.specs.Codes.{Answers};
ghost use Rattle.answers.specs.Words.{filled, filled_at, flag};

use crate::codes::OUTSIDE;
use crate::words::{put_at, put_numbers};
use protobuf::refusal::Refusal;

// A value as N numbers.
pub trait Layout<const N: usize>: Copy {
    ghost words: { Self → List ℕ };

    fn numbers(self) -> [u64; N]
        ensures { result ≡ words self };

    // Puts them into the slice's first bytes; no byte changes where it is too short for them.
    final fn put(self, out: &mut [u8])
        ensures { out.new ≡ filled out.old (words self) }
    {
        put_numbers(out, &self.numbers());
    }

    // Puts them into the bytes from `at` on, likewise.
    final fn put_at(self, out: &mut [u8], at: usize)
        ensures { out.new ≡ filled_at out.old at (words self) }
    {
        put_at(out, at, &self.numbers());
    }

    // They are few enough for an array.
    ghost few: { N * 8 < 2 ^ 63 };
}

// Two numbers as they are.
impl Layout<2> for [u64; 2] {
    ghost words = { λ numbers. numbers };

    ghost few = { lit< tt };

    fn numbers(self) -> [u64; 2] {
        self
    }
}

// Whether something is so, as 1 or 0.
impl Layout<1> for bool {
    ghost words = { λ it. flag it ∷ [] };

    ghost few = { lit< tt };

    fn numbers(self) -> [u64; 1] {
        [self as u64]
    }
}

// Puts an answer into a slice and gives its code: 14 where the slice is too short for the numbers, then the refusal's number. Where the code is
// not 0, nothing is written.
pub fn put_answer<const N: usize, T: Layout<N>>(out: &mut [u8], answer: Result<T, Refusal>) -> u32
    ensures { Answers N T.words out.old answer result out.new }
{
    let code = match answer {
        Ok(value) => {
            value.put(out);
            0
        }
        Err(refusal) => u32::from(refusal),
    };
    if out.len() / 8 < N { OUTSIDE } else { code }
}
