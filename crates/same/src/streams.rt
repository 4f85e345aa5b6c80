// Two streams in step. What is compared is handed out step by step by a state, and what a stream is, and how two of its items compare, is the
// state's type's own.
ghost use Rattle.std.specs.Prelude.{◌≡◌, List, ℕ, Bool};
ghost use Rattle.protobuf.specs.Column.{Column};
ghost use Rattle.fields.specs.Outcome.{Outcome};
ghost use Rattle.wire.specs.declared.record.WireBlock.{WireBlock as Block};
ghost use Rattle.walk.specs.Same.{same_stream};
ghost use Rattle.same.specs.Streams.{shown_then, Item-stands};

use fields::step::Step;
use protobuf::refusal::Refusal;
use wire::record::WireBlock;

pub(crate) trait Stream: Copy {
    // What a step hands out.
    type Item: Copy;

    // What an item shows, over the buffer that it was read in.
    ghost Shown: { Type 0 };

    ghost shown: { List ℕ → Self.Item → Shown };

    // What a state has ahead, over a buffer and a record.
    ghost from: { List ℕ → Block → Self → Column Shown };

    // How two items compare, each over its own.
    ghost same: { List ℕ → Block → List ℕ → Block → Shown → Shown → Outcome Bool };

    // What holds of an item that is handed out.
    ghost stands: { List ℕ → Block → Self.Item → Type 0 };

    // The next item, with the state behind it.
    fn step(self, buffer: &[u8], block: WireBlock) -> Step<Self::Item, Self>
        ensures says { shown_then (shown buffer.now) result.said (from buffer.now block result.next) ≡ from buffer.now block self }
        ensures stand { Item-stands (stands buffer.now block) result.said };

    // Whether two items are the same: the first's number, then the second's.
    fn same(
        first: &[u8],
        a: WireBlock,
        x: Self::Item,
        second: &[u8],
        b: WireBlock,
        y: Self::Item,
    ) -> Result<bool, Refusal>
        requires { stands first.now a x × stands second.now b y }
        ensures { result ≡ same first.now a second.now b (shown first.now x) (shown second.now y) };
}

// What two states have ahead: the first's number, then the second's, where a step or an item meets one; else whether they are the same, one by
// one, and end together.
pub(crate) fn same_streams<S: Stream>(
    first: &[u8],
    a: WireBlock,
    x: S,
    second: &[u8],
    b: WireBlock,
    y: S,
) -> Result<bool, Refusal>
    ensures { result ≡ same_stream (S.same first.now a second.now b) (S.from first.now a x) (S.from second.now b y) }
{
    let mut here = x;
    let mut there = y;
    loop {
        let p = here.step(first, a);
        let q = there.step(second, b);
        match (p.said?, q.said?) {
            (None, None) => return Ok(true),
            (Some(item), Some(other)) => {
                if !S::same(first, a, item, second, b, other)? {
                    return Ok(false);
                }
            }
            _ => return Ok(false),
        }
        here = p.next;
        there = q.next;
    }
}
