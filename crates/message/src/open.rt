// The groups that are open around the innermost one while a group is skipped.
ghost use Rattle.std.specs.Prelude.{◌≡◌, ◌≤◌, ◌<◌, leb, length, List, ℕ, [], ◌∷◌};
ghost use Rattle.message.specs.Open.{stacked, popped};

use std::marker::Model;

// Their field numbers, as a stack of fifteen at most.
#[derive(Drop)]
pub(crate) struct Open {
    numbers: [u32; 15],
    len: usize,
}

impl Model for Open {
    ghost Value = { List ℕ };

    // The number that was put last comes first.
    ghost view = { λ o. stacked o.len o.numbers };

    ghost invariant = { λ o. o.len ≤ 15 };
}

impl Open {
    pub(crate) fn new() -> Self
        ensures { result ≡ [] }
    {
        Open {
            numbers: [0; 15],
            len: 0,
        }
    }

    pub(crate) fn is_full(&self) -> bool
        ensures { result ≡ leb 15 (length self.now) }
    {
        15 <= self.len
    }

    pub(crate) fn push(&mut self, number: u32)
        requires { length self.old < 15 }
        ensures { self.new ≡ number ∷ self.old }
    {
        self.numbers[self.len] = number;
        self.len += 1;
    }

    // The number that was put last, taken off; none where there is none.
    pub(crate) fn pop(&mut self) -> Option<u32>
        ensures { popped self.old ≡ (result, self.new) }
    {
        if self.len == 0 {
            return None;
        }
        self.len -= 1;
        Some(self.numbers[self.len])
    }
}
