// The sub-walks of an element through C: the state before its tags, its references or its members goes into a slot that the caller lends,
// and each call hands out the next item, or as many as there is room for. And the text of a member's role.
ghost use Rattle.std.specs.Prelude.{◌≡◌, List, ℕ, ◌≤◌, length, take, leb};
ghost use Rattle.numbers.specs.Choose.{choose};
ghost use Rattle.elements.specs.References.{refs_from};
ghost use Rattle.elements.specs.Tags.{raw_tags_from};
ghost use Rattle.answers.specs.Words.{filled};
ghost use Rattle.answers.specs.Codes.{code_of};
ghost use Rattle.calls.specs.Calls.{one_room, room_for, call_code, items_of, items_put, count_after, SlotLeft};
ghost use Rattle.calls.specs.References.{ref_words, refs_at, ref_item, refs_call};
ghost use Rattle.tag_calls.specs.Tags.{tag_words, tags_at, raw_tag_item, raw_tags_call, tag_item, tags_in, tags_call};
ghost use Rattle.member_calls.specs.Members.{member_words, members_at, member_item, members_in, members_call};
ghost use Rattle.start_calls.specs.Starts.{refs_start_in, tags_start_in, members_start_in, started_by};
ghost use Rattle.nuorpyts.specs.Block.{Scanned-in, got_code, got_after};
ghost use Rattle.nuorpyts.specs.Walks.{role_in, own_role};

use crate::blocks::give_range;
use answers::codes::{OUTSIDE, code};
use answers::record::record_in;
use calls::next::{next_many, next_one};
use calls::references::{RefState, Refs, next_ref};
use elements::members::{RelMemberIter, role_text};
use elements::references::WayRefIter;
use elements::tags::TagIter;
use fields::part::Part;
use member_calls::members::{MemberState, Members};
use numbers::signed::{Signed, is_int32};
use protobuf::refusal::Refusal;
use start_calls::starts::{members_of, refs_of, start, tags_of};
use tag_calls::raw_tags::RawTags;
use tag_calls::tags::{TagState, Tags};

// The state before an element's tags, which every kind has, goes into the slot: 14 where the slot or the element is too short, or the
// element's numbers are none of an element's; the slot, if it is long enough, then holds the ended state.
#[unsafe(no_mangle)]
pub extern "C" fn nuorpyts_start_tags(element: &[u8], state: &mut [u8]) -> u32
    ensures code { result ≡ choose (leb 40 (length state.old)) (code_of (tags_start_in element.now)) 14 }
    ensures next { state.new ≡ filled state.old (tag_words (started_by TagIter.Ended (tags_start_in element.now))) }
    ensures back { 40 ≤ length state.old → tags_at state.new ≡ started_by TagIter.Ended (tags_start_in element.now) }
{
    code(start::<TagState>(state, tags_of(element)))
}

// The same of a way's references; other elements have none, and the slot then holds the ended state, with code 0.
#[unsafe(no_mangle)]
pub extern "C" fn nuorpyts_start_refs(element: &[u8], state: &mut [u8]) -> u32
    ensures code { result ≡ choose (leb 32 (length state.old)) (code_of (refs_start_in element.now)) 14 }
    ensures next { state.new ≡ filled state.old (ref_words (started_by WayRefIter.Ended (refs_start_in element.now))) }
    ensures back { 32 ≤ length state.old → refs_at state.new ≡ started_by WayRefIter.Ended (refs_start_in element.now) }
{
    code(start::<RefState>(state, refs_of(element)))
}

// The same of a relation's members, of which other elements have none.
#[unsafe(no_mangle)]
pub extern "C" fn nuorpyts_start_members(element: &[u8], state: &mut [u8]) -> u32
    ensures code { result ≡ choose (leb 64 (length state.old)) (code_of (members_start_in element.now)) 14 }
    ensures next { state.new ≡ filled state.old (member_words (started_by RelMemberIter.Ended (members_start_in element.now))) }
    ensures back { 64 ≤ length state.old → members_at state.new ≡ started_by RelMemberIter.Ended (members_start_in element.now) }
{
    code(start::<MemberState>(state, members_of(element)))
}

// The next pair of a key and a value, with the state behind it: 14 where the slot is too short for a state, and 101 where it holds the
// ended one; both leave it as it is. Else 14 where `out` is too short for one, then what the step refuses, and 101 where there are no
// more: the slot then holds the ended state, and `out` is as it was.
#[unsafe(no_mangle)]
pub extern "C" fn nuorpyts_raw_tag(buffer: &[u8], state: &mut [u8], out: &mut [u8]) -> u32
    ensures code { result ≡ call_code (raw_tags_call buffer.now state.old (one_room 16 out.old)) }
    ensures next { SlotLeft tags_at tag_words TagIter.Ended (raw_tags_from buffer.now) state.old (raw_tags_call buffer.now state.old (one_room 16 out.old)) state.new }
    ensures after { out.new ≡ items_put 16 raw_tag_item out.old 0 (items_of (raw_tags_call buffer.now state.old (one_room 16 out.old))) }
{
    code(next_one::<TagState, RawTags>(buffer, Ok(()), state, out))
}

// As many pairs as `out` has room for, and how many they are: the codes are those of a call for one, with 14 also where the slice for the
// count is too short. What ends them behind an item is told by the next call.
#[unsafe(no_mangle)]
pub extern "C" fn nuorpyts_raw_tags(
    buffer: &[u8],
    state: &mut [u8],
    out: &mut [u8],
    count: &mut [u8],
) -> u32
    ensures code { result ≡ call_code (raw_tags_call buffer.now state.old (room_for 16 out.old count.old)) }
    ensures next { SlotLeft tags_at tag_words TagIter.Ended (raw_tags_from buffer.now) state.old (raw_tags_call buffer.now state.old (room_for 16 out.old count.old)) state.new }
    ensures after { out.new ≡ items_put 16 raw_tag_item out.old 0 (items_of (raw_tags_call buffer.now state.old (room_for 16 out.old count.old))) }
    ensures counted { count.new ≡ count_after count.old (items_of (raw_tags_call buffer.now state.old (room_for 16 out.old count.old))) }
{
    code(next_many::<TagState, RawTags>(buffer, Ok(()), state, out, count))
}

// The next tag with its two texts, with the state behind it: 14 where the slot is too short for a state, and 101 where it holds the ended
// one; both leave it as it is. Else 14 where `out` is too short for one or no record can be read, then what the step refuses, and 101
// where there are no more: the slot then holds the ended state, and `out` is as it was.
#[unsafe(no_mangle)]
pub extern "C" fn nuorpyts_tag(buffer: &[u8], rec: &[u8], state: &mut [u8], out: &mut [u8]) -> u32
    ensures code { result ≡ call_code (tags_call buffer.now rec.now state.old (one_room 48 out.old)) }
    ensures next { SlotLeft tags_at tag_words TagIter.Ended (tags_in buffer.now rec.now) state.old (tags_call buffer.now rec.now state.old (one_room 48 out.old)) state.new }
    ensures after { out.new ≡ items_put 48 tag_item out.old 0 (items_of (tags_call buffer.now rec.now state.old (one_room 48 out.old))) }
{
    code(next_one::<TagState, Tags>(buffer, record_in(rec), state, out))
}

// As many tags with their texts as `out` has room for, and how many they are: the codes are those of a call for one, with 14 also where
// the slice for the count is too short. What ends them behind an item is told by the next call.
#[unsafe(no_mangle)]
pub extern "C" fn nuorpyts_tags(
    buffer: &[u8],
    rec: &[u8],
    state: &mut [u8],
    out: &mut [u8],
    count: &mut [u8],
) -> u32
    ensures code { result ≡ call_code (tags_call buffer.now rec.now state.old (room_for 48 out.old count.old)) }
    ensures next { SlotLeft tags_at tag_words TagIter.Ended (tags_in buffer.now rec.now) state.old (tags_call buffer.now rec.now state.old (room_for 48 out.old count.old)) state.new }
    ensures after { out.new ≡ items_put 48 tag_item out.old 0 (items_of (tags_call buffer.now rec.now state.old (room_for 48 out.old count.old))) }
    ensures counted { count.new ≡ count_after count.old (items_of (tags_call buffer.now rec.now state.old (room_for 48 out.old count.old))) }
{
    code(next_many::<TagState, Tags>(buffer, record_in(rec), state, out, count))
}

// The next reference, with the state behind it: 14 where the slot is too short for a state, and 101 where it holds the ended one; both
// leave it as it is. Else 14 where `out` is too short for one, then what the step refuses, and 101 where there are no more: the slot then
// holds the ended state, and `out` is as it was.
#[unsafe(no_mangle)]
pub extern "C" fn nuorpyts_ref(buffer: &[u8], state: &mut [u8], out: &mut [u8]) -> u32
    ensures code { result ≡ call_code (refs_call buffer.now state.old (one_room 8 out.old)) }
    ensures next { SlotLeft refs_at ref_words WayRefIter.Ended (refs_from buffer.now) state.old (refs_call buffer.now state.old (one_room 8 out.old)) state.new }
    ensures after { out.new ≡ items_put 8 ref_item out.old 0 (items_of (refs_call buffer.now state.old (one_room 8 out.old))) }
{
    code(next_ref(buffer, state, out))
}

// As many references as `out` has room for, and how many they are: the codes are those of a call for one, with 14 also where the slice for
// the count is too short. What ends them behind an item is told by the next call.
#[unsafe(no_mangle)]
pub extern "C" fn nuorpyts_refs(
    buffer: &[u8],
    state: &mut [u8],
    out: &mut [u8],
    count: &mut [u8],
) -> u32
    ensures code { result ≡ call_code (refs_call buffer.now state.old (room_for 8 out.old count.old)) }
    ensures next { SlotLeft refs_at ref_words WayRefIter.Ended (refs_from buffer.now) state.old (refs_call buffer.now state.old (room_for 8 out.old count.old)) state.new }
    ensures after { out.new ≡ items_put 8 ref_item out.old 0 (items_of (refs_call buffer.now state.old (room_for 8 out.old count.old))) }
    ensures counted { count.new ≡ count_after count.old (items_of (refs_call buffer.now state.old (room_for 8 out.old count.old))) }
{
    code(next_many::<RefState, Refs>(buffer, Ok(()), state, out, count))
}

// The next member, with the state behind it: 14 where the slot is too short for a state, and 101 where it holds the ended one; both leave
// it as it is. Else 14 where `out` is too short for one or no record can be read, then what the step refuses, and 101 where there are no
// more: the slot then holds the ended state, and `out` is as it was.
#[unsafe(no_mangle)]
pub extern "C" fn nuorpyts_member(
    buffer: &[u8],
    rec: &[u8],
    state: &mut [u8],
    out: &mut [u8],
) -> u32
    ensures code { result ≡ call_code (members_call buffer.now rec.now state.old (one_room 32 out.old)) }
    ensures next { SlotLeft members_at member_words RelMemberIter.Ended (members_in buffer.now rec.now) state.old (members_call buffer.now rec.now state.old (one_room 32 out.old)) state.new }
    ensures after { out.new ≡ items_put 32 member_item out.old 0 (items_of (members_call buffer.now rec.now state.old (one_room 32 out.old))) }
{
    code(next_one::<MemberState, Members>(buffer, record_in(rec), state, out))
}

// As many members as `out` has room for, and how many they are: the codes are those of a call for one, with 14 also where the slice for
// the count is too short. What ends them behind an item is told by the next call.
#[unsafe(no_mangle)]
pub extern "C" fn nuorpyts_members(
    buffer: &[u8],
    rec: &[u8],
    state: &mut [u8],
    out: &mut [u8],
    count: &mut [u8],
) -> u32
    ensures code { result ≡ call_code (members_call buffer.now rec.now state.old (room_for 32 out.old count.old)) }
    ensures next { SlotLeft members_at member_words RelMemberIter.Ended (members_in buffer.now rec.now) state.old (members_call buffer.now rec.now state.old (room_for 32 out.old count.old)) state.new }
    ensures after { out.new ≡ items_put 32 member_item out.old 0 (items_of (members_call buffer.now rec.now state.old (room_for 32 out.old count.old))) }
    ensures counted { count.new ≡ count_after count.old (items_of (members_call buffer.now rec.now state.old (room_for 32 out.old count.old))) }
{
    code(next_many::<MemberState, Members>(buffer, record_in(rec), state, out, count))
}

// The text of a role, by the record in a slice: 14 where its number is no int32.
fn role_in(buffer: &[u8], rec: &[u8], role: usize) -> Result<Option<Part>, Refusal>
    ensures { result ≡ role_in buffer.now rec.now role }
{
    if !is_int32(role as u64) {
        return Err(Refusal::Outside);
    }
    let block = record_in(rec)?;
    role_text(buffer, block, i32::of_bits(role as u64))
}

// The range of the text of a role, whose number is given as its two's complement at 64 bits: start and length go to `out`. 14 first where
// `out` is shorter than them, `rec` is no record or the number is no int32; then 100 where there is none, as for a negative number, and 14
// where its range passes the buffer. On the buffer and the record that `nuorpyts_scan` left, it is the block's own string of that number.
#[unsafe(no_mangle)]
pub extern "C" fn nuorpyts_role(buffer: &[u8], rec: &[u8], role: usize, out: &mut [u8]) -> u32
    ensures code { result ≡ choose (leb 16 (length out.old)) (got_code (role_in buffer.now rec.now role)) 14 }
    ensures after { out.new ≡ got_after out.old (role_in buffer.now rec.now role) }
    ensures scanned { (b : List ℕ) (n : ℕ) → Scanned-in buffer.now rec.now b n → (result ≡ choose (leb 16 (length out.old)) (got_code (own_role (take n b) role)) 14) × (out.new ≡ got_after out.old (own_role (take n b) role)) }
{
    if out.len() < 16 {
        return OUTSIDE;
    }
    let got = role_in(buffer, rec, role);
    give_range(got, out)
}
