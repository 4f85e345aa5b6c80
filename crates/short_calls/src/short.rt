// A single call's short way: the next plain dense node by the slot's own numbers, with nothing between them and the bytes. Most calls that draw a
// map are such. Each function here is called from `short_step` alone and hands on numbers, so that all of it stays in registers
// (docs/DECISIONS.md, Through C).
ghost use Rattle.std.specs.Prelude.{◌≡◌, true, [], ◌∷◌, ◌+◌, ◌/◌, ◌%◌, ◌^◌, ◌≤◌, ◌<◌, length};
ghost use Rattle.std.specs.Int.Signed.{mag};
ghost use Rattle.numbers.specs.Little.{number_at};
ghost use Rattle.numbers.specs.Signed.{twos, zigzag, wrapping_add};
ghost use Rattle.protobuf.specs.Column.{step_at};
ghost use Rattle.protobuf.specs.Short.{Short};
ghost use Rattle.answers.specs.Words.{filled, signed_word};
ghost use Rattle.calls.specs.Calls.{one_room};
ghost use Rattle.calls.specs.Items.{ServedBy};
ghost use Rattle.walk.specs.declared.state.BlockElementsIter.TheVariants as iter;
ghost use Rattle.walk_slots.specs.Slot.{walk_words, nodes_at, walk_at};
ghost use Rattle.walk_calls.specs.Steps.{found_by, put_words, walk_in, walk_call};
ghost use Rattle.short_calls.specs.Short.{NumbersHeld, PlaceInside};

use answers::record::record_in;
use answers::words::put_numbers;
use fields::part::part_fits;
use kinds::dense_nodes::has_no_pairs;
use lookup::by_number::is_inside;
use numbers::little::Little;
use numbers::signed::Signed;
use protobuf::column::{Column, short_value};

// Whether a slot holds plain dense nodes.
fn holds_nodes(slot: &[u8]) -> bool
    ensures { result ≡ true → (272 ≤ length slot.now) × (iter.DenseNodes (nodes_at slot.now) ≡ walk_at slot.now) }
{
    if slot.len() < 272 {
        return false;
    }
    if u64::read(slot, 0) != 2 {
        return false;
    }
    u64::read(slot, 8) == 0
}

// Whether the record and the nodes' group and message are inside. That their columns are, each value's word tells.
fn is_place_inside(buffer: &[u8], rec: &[u8], slot: &[u8]) -> bool
    ensures { result ≡ true → PlaceInside buffer.now rec.now (nodes_at slot.now) }
{
    let r = record_in(rec);
    let Ok(block) = r else {
        return false;
    };
    if !is_inside(buffer, block) {
        return false;
    }
    if block.groups <= u64::read(slot, 16) as usize {
        return false;
    }
    if !part_fits(
        buffer.len(),
        u64::read(slot, 24) as usize,
        u64::read(slot, 32) as usize,
    ) {
        return false;
    }
    part_fits(
        buffer.len(),
        u64::read(slot, 40) as usize,
        u64::read(slot, 48) as usize,
    )
}

// The next value of the column whose numbers stand at a place of the slot, as a word (`short_value`).
fn word_at(buffer: &[u8], slot: &[u8], at: usize) -> u64
    requires { at ≤ 256 }
    ensures { Short (step_at buffer.now (number_at 8 slot.now at) (number_at 8 slot.now (at + 8))) (number_at 8 slot.now at) result }
{
    short_value(
        buffer,
        u64::read(slot, at) as usize,
        u64::read(slot, at + 8) as usize,
    )
}

// The bits of the sum at a place of the slot, with a word's value added.
fn sum_behind(slot: &[u8], at: usize, word: u64) -> u64
    ensures bits { result ≡ signed_word (wrapping_add 64 (twos 64 (number_at 8 slot.now at)) (zigzag 64 (word / 16))) }
    ensures held { mag (wrapping_add 64 (twos 64 (number_at 8 slot.now at)) (zigzag 64 (word / 16))) < 2 ^ 63 }
{
    let before = i64::of_bits(u64::read(slot, at));
    before.plus(i64::of_zigzag(word / 16)).bits()
}

// Puts the node that has these sums.
fn put_node(slot: &[u8], out: &mut [u8], id: u64, lat: u64, lon: u64)
    ensures { out.new ≡ filled out.old (0 ∷ number_at 8 slot.now 16 ∷ number_at 8 slot.now 40 ∷ number_at 8 slot.now 48 ∷ id ∷ lat ∷ lon ∷ number_at 8 slot.now 128 ∷ number_at 8 slot.now 136 ∷ 0 ∷ []) }
{
    put_numbers(
        out,
        &[
            0,
            u64::read(slot, 16),
            u64::read(slot, 40),
            u64::read(slot, 48),
            id,
            lat,
            lon,
            u64::read(slot, 128),
            u64::read(slot, 136),
            0,
        ],
    );
}

// Puts the state behind it, by the words of its values.
fn put_behind(slot: &mut [u8], id: u64, lat: u64, lon: u64, ids: u64, lats: u64, lons: u64)
    requires { (number_at 8 slot.old 56 + id % 16 < 2 ^ 64) × ((number_at 8 slot.old 80 + lat % 16 < 2 ^ 64) × ((number_at 8 slot.old 104 + lon % 16 < 2 ^ 64) × (number_at 8 slot.old 128 + 1 < 2 ^ 64))) }
    ensures after { slot.new ≡ filled slot.old (2 ∷ 0 ∷ number_at 8 slot.old 16 ∷ number_at 8 slot.old 24 ∷ number_at 8 slot.old 32 ∷ number_at 8 slot.old 40 ∷ number_at 8 slot.old 48 ∷ (number_at 8 slot.old 56 + id % 16) ∷ number_at 8 slot.old 64 ∷ ids ∷ (number_at 8 slot.old 80 + lat % 16) ∷ number_at 8 slot.old 88 ∷ lats ∷ (number_at 8 slot.old 104 + lon % 16) ∷ number_at 8 slot.old 112 ∷ lons ∷ (number_at 8 slot.old 128 + 1) ∷ number_at 8 slot.old 136 ∷ []) }
    ensures held { NumbersHeld (nodes_at slot.old) }
{
    put_numbers(
        slot,
        &[
            2,
            0,
            u64::read(slot, 16),
            u64::read(slot, 24),
            u64::read(slot, 32),
            u64::read(slot, 40),
            u64::read(slot, 48),
            u64::read(slot, 56) + id % 16,
            u64::read(slot, 64),
            ids,
            u64::read(slot, 80) + lat % 16,
            u64::read(slot, 88),
            lats,
            u64::read(slot, 104) + lon % 16,
            u64::read(slot, 112),
            lons,
            u64::read(slot, 128) + 1,
            u64::read(slot, 136),
        ],
    );
}

// The next element where it is a plain dense node of short values and no pairs: it is put, and the slot holds the state behind it. Else nothing
// is written, and the call is made by `next_step`.
pub fn short_step(buffer: &[u8], rec: &[u8], slot: &mut [u8], out: &mut [u8]) -> bool
    ensures { ServedBy (found_by buffer.now) put_words (walk_in buffer.now rec.now) 208 walk_at walk_words iter.Ended (walk_call buffer.now rec.now slot.old (one_room 208 out.old)) slot.old out.old result slot.new out.new }
{
    if !holds_nodes(slot) {
        return false;
    }
    if out.len() < 208 {
        return false;
    }
    if !is_place_inside(buffer, rec, slot) {
        return false;
    }
    let id = word_at(buffer, slot, 56);
    let lat = word_at(buffer, slot, 80);
    let lon = word_at(buffer, slot, 104);
    if id == 0 {
        return false;
    }
    if lat == 0 {
        return false;
    }
    if lon == 0 {
        return false;
    }
    let keyvals = Column {
        at: u64::read(slot, 128) as usize,
        end: u64::read(slot, 136) as usize,
    };
    if !has_no_pairs(buffer, keyvals) {
        return false;
    }
    let ids = sum_behind(slot, 72, id);
    let lats = sum_behind(slot, 96, lat);
    let lons = sum_behind(slot, 120, lon);
    put_node(slot, out, ids, lats, lons);
    put_behind(slot, id, lat, lon, ids, lats, lons);
    true
}
