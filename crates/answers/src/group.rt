// What is read of a group: its range, a part of it, its kind, and the state of an iteration over its messages.
ghost use Rattle.std.specs.Prelude.{◌≡◌};
ghost use lib.Dec.{lit<};
ghost use Rattle.answers.specs.Group.{range_words, part_words, kind_words, iter_words, messages_in};

use crate::layout::Layout;
use fields::part::Part;
use groups::classify::BlockType;
use groups::group::{MessagePlace, WireMessageIter};
use numbers::little::Little;

// A state's bytes, and the phases of one, which are met in `numbers` and `messages_in` alone.
const STATE: usize = 40;

const ENDED: u64 = 0;

const AT: u64 = 1;

// What a slice is as the state of an iteration over a group's messages. It is no Result: two of the four cases are no state, and what becomes
// of the slot is another thing in each.
#[derive(Clone, Copy)]
pub enum MessagesIn {
    // Too short for one.
    Short,
    // Numbers that no state has.
    Outside,
    Ended,
    At(MessagePlace),
}

// A range: its start and length.
impl Layout<2> for Part {
    ghost words = { range_words };

    ghost few = { lit< tt };

    fn numbers(self) -> [u64; 2] {
        [self.start as u64, self.len as u64]
    }
}

// A part: whether it is present too.
impl Layout<3> for Part {
    ghost words = { part_words };

    ghost few = { lit< tt };

    fn numbers(self) -> [u64; 3] {
        [self.present as u64, self.start as u64, self.len as u64]
    }
}

// A group's kind: its number.
impl Layout<1> for BlockType {
    ghost words = { kind_words };

    ghost few = { lit< tt };

    fn numbers(self) -> [u64; 1] {
        [u64::from(self)]
    }
}

// A state: its phase, and 0 four times or the group's start and length, the place in it and the field.
impl Layout<5> for WireMessageIter {
    ghost words = { iter_words };

    ghost few = { lit< tt };

    fn numbers(self) -> [u64; 5] {
        match self {
            WireMessageIter::Ended => [ENDED, 0, 0, 0, 0],
            WireMessageIter::At(p) => [
                AT,
                p.start as u64,
                p.len as u64,
                p.at as u64,
                p.field as u64,
            ],
        }
    }
}

// The state in the slice's first 40 bytes. Of an ended one the other numbers are not looked at.
pub fn messages_in(state: &[u8]) -> MessagesIn
    ensures { result ≡ messages_in state.now }
{
    if state.len() < STATE {
        return MessagesIn::Short;
    }
    let phase = u64::read(state, 0);
    let field = u64::read(state, 32);
    if phase == ENDED {
        return MessagesIn::Ended;
    }
    if phase != AT {
        return MessagesIn::Outside;
    }
    if 4_294_967_295 < field {
        return MessagesIn::Outside;
    }
    MessagesIn::At(MessagePlace {
        start: u64::read(state, 8) as usize,
        len: u64::read(state, 16) as usize,
        at: u64::read(state, 24) as usize,
        field: field as u32,
    })
}
