// The check of a whole block: may it be walked.
ghost use Rattle.std.specs.Prelude.{◌≡◌, List, ℕ, take, true};
ghost use Rattle.lookup.specs.Lookup.{is_record_inside};
ghost use Rattle.wire.specs.Scan.{Scanned-as};
ghost use Rattle.block.specs.Check.{passed, all, checked};
ghost use Rattle.accept.specs.Accept.{groups_in, inside_of, group_at_part, checked_in};

use crate::group_check::check_group;
use fields::part::bytes_of;
use lookup::by_number::{group, is_inside};
use protobuf::refusal::Refusal;
use wire::record::WireBlock;

// 14 where an entry of the group table names a range that passes the buffer. A `for` of its own, as `check_groups`: one over a closure would say
// more than both.
fn check_ranges(buffer: &[u8], block: WireBlock) -> Result<(), Refusal>
    requires { is_record_inside buffer.now block ≡ true }
    ensures { result ≡ all (inside_of buffer.now) (groups_in buffer.now block) }
{
    for i in 0..block.groups {
        group(buffer, block, i)?;
    }
    Ok(())
}

// The groups one after the other.
fn check_groups(buffer: &[u8], block: WireBlock) -> Result<(), Refusal>
    requires { (is_record_inside buffer.now block ≡ true) × (all (inside_of buffer.now) (groups_in buffer.now block) ≡ passed) }
    ensures { result ≡ all (group_at_part buffer.now) (groups_in buffer.now block) }
{
    for i in 0..block.groups {
        let range = group(buffer, block, i)?;
        check_group(bytes_of(buffer, range))?;
    }
    Ok(())
}

// Whether a scanned block may be walked: 14 where the block, a table or a range of the group table passes the buffer; then the first
// condition of the table that the groups meet, each read whole: the dense pass, its dense message, its nodes, its ways, its relations. On
// the buffer and the record that a scan left it is accepted exactly where its bytes meet none.
pub fn check(buffer: &[u8], block: WireBlock) -> Result<(), Refusal>
    ensures answer { result ≡ checked_in buffer.now block }
    ensures scanned { (b : List ℕ) (n : ℕ) → Scanned-as buffer.now block b n → result ≡ checked (take n b) }
{
    if !is_inside(buffer, block) {
        return Err(Refusal::Outside);
    }
    check_ranges(buffer, block)?;
    check_groups(buffer, block)
}
