// The records of two blocks: granularity, offsets and group count.
ghost use Rattle.std.specs.Prelude.{◌≡◌, List, ℕ};
ghost use Rattle.walk.specs.Same.{same_record};

use wire::record::WireBlock;

// Whether they are the same. Where the tables stand and the date granularity make no difference.
pub(crate) fn same_record(a: WireBlock, b: WireBlock) -> bool
    ensures { (s t : List ℕ) → result ≡ same_record s a t b }
{
    let first = (a.granularity, a.latoffset, a.lonoffset, a.groups);
    first == (b.granularity, b.latoffset, b.lonoffset, b.groups)
}
