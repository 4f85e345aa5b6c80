// The references of two ways in step.
ghost use Rattle.std.specs.Prelude.{ℤ, Ok};
ghost use Rattle.elements.specs.References.{refs_from};
ghost use Rattle.walk.specs.Same.{same_number};

use crate::streams::Stream;
use elements::references::WayRefIter;
use fields::step::Step;
use protobuf::refusal::Refusal;
use wire::record::WireBlock;

// References are compared as they are handed out. The record says nothing of them.
impl Stream for WayRefIter {
    type Item = i64;

    ghost Shown = { ℤ };

    ghost shown = { λ s i. i };

    ghost from = { λ s r w. refs_from s w };

    ghost same = { λ s r t q i j. Ok (same_number i j) };

    ghost stands = { λ s r i. Unit {0} };

    fn step(self, buffer: &[u8], _block: WireBlock) -> Step<i64, WayRefIter> {
        self.step(buffer)
    }

    fn same(
        _first: &[u8],
        _a: WireBlock,
        x: i64,
        _second: &[u8],
        _b: WireBlock,
        y: i64,
    ) -> Result<bool, Refusal> {
        Ok(x == y)
    }
}
