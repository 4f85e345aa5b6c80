// What the calls of a walk or a sub-walk hand out.
ghost use Rattle.std.specs.Prelude.{ℕ, List, true, ◌≡◌, ◌+◌, ◌*◌, ◌≤◌, length};
ghost use Rattle.protobuf.specs.Stream.{end};
ghost use Rattle.protobuf.specs.Column.{Column, ended};
ghost use Rattle.calls.specs.Items.{ItemPut, ItemsRun};

use crate::run::Run;
use crate::slot::Slot;
use answers::codes::Stop;

// The items that a state in a slot has ahead. The loops of a call are written over these, once (`next.rt`), and inlined for each.
pub trait Items<S: Slot> {
    // What is read beside the buffer.
    type Opened: Copy;

    // How many bytes an item takes in the answer's slice.
    const SIZE: usize;

    ghost SIZE: { ℕ };

    // An item, and what a program puts for it.
    ghost Item: { Type 0 };

    ghost Put: { Type 0 };

    ghost shows: { List ℕ → Put → Item };

    ghost words: { Put → List ℕ };

    // What a state has ahead.
    ghost from: { List ℕ → Self.Opened → S.State → Column Item };

    // One item more, at a place of `out`, and the state behind it.
    fn put_one(
        buffer: &[u8],
        opened: Self::Opened,
        state: S::State,
        out: &mut [u8],
        at: usize,
    ) -> Result<S::State, Stop>
        requires { at + SIZE ≤ length out.old }
        ensures { ItemPut (shows buffer.now) words (from buffer.now opened) state out.old at result out.new };

    // Items by a short way, from number `first` on, up to one that it does not serve; where there is none, it serves no item.
    fn put_short(
        buffer: &[u8],
        opened: Self::Opened,
        start: S::State,
        out: &mut [u8],
        first: usize,
        most: usize,
    ) -> Run<S::State>
        requires { SIZE * most ≤ length out.old }
        ensures { ItemsRun (shows buffer.now) words (from buffer.now opened) SIZE most first start out.old result.count result.next out.new }
    {
        Run {
            count: first,
            next: start,
        }
    }

    // Whether there are no more, where that can be seen without a step.
    fn has_ended(buffer: &[u8], opened: Self::Opened, state: S::State) -> bool
        ensures { result ≡ true → from buffer.now opened state ≡ end ended }
    {
        false
    }

    // What is put for an item takes no more than its bytes.
    ghost small: { (x : Put) → 8 * length (words x) ≤ SIZE };
}
