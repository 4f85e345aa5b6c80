// The tags of an element with their texts, called through C over the record of a scanned block; and the state of both kinds of tags.
ghost use Rattle.std.specs.Prelude.{true, ◌≡◌, ◌+◌, ◌*◌, ◌≤◌, length};
ghost use lib.Dec.{lit≤};
ghost use Rattle.lookup.specs.Lookup.{is_record_inside};
ghost use Rattle.elements.specs.declared.tags.Tag.{Tag};
ghost use Rattle.elements.specs.declared.tags.TagIter.{TagIter};
ghost use Rattle.elements.specs.Tags.{tags_from};
ghost use Rattle.calls.specs.Items.{ItemsRun};
ghost use Rattle.tag_calls.specs.Tags.{tag_words, tags_at, tags_over, tag_item, TextsBy};

use answers::codes::Stop;
use answers::words::{put_at, put_numbers};
use calls::ended::is_at_end;
use calls::items::Items;
use calls::run::Run;
use calls::slot::{Slot, column_in};
use columns::zip::TagColumns;
use elements::tags::TagIter;
use fields::part::part_fits;
use fields::step::Step;
use lookup::by_number::is_inside;
use numbers::little::Little;
use protobuf::column::{Column, wide_value};
use wire::record::WireBlock;

// The state in a slot's first 40 bytes.
pub struct TagState;

impl Slot for TagState {
    type State = TagIter;

    const WIDTH: usize = 40;

    ghost WIDTH = { 40 };

    ghost words = { tag_words };

    ghost state_at = { tags_at };

    ghost over = { TagIter.Ended };

    ghost is_over = { tags_over };

    fn over() -> TagIter {
        TagIter::Ended
    }

    fn is_over(state: TagIter) -> bool {
        match state {
            TagIter::Ended => true,
            TagIter::Columns(_) => false,
            TagIter::KeysVals(_) => false,
        }
    }

    // Of an ended one the other numbers are not looked at.
    fn state_in(slot: &[u8]) -> TagIter {
        match u64::read(slot, 0) {
            0 => TagIter::Ended,
            1 => TagIter::Columns(TagColumns {
                keys: column_in(slot, 8, 16),
                vals: column_in(slot, 24, 32),
            }),
            2 => TagIter::KeysVals(column_in(slot, 8, 16)),
            _ => TagIter::KeysVals(Column { at: 1, end: 0 }),
        }
    }

    fn put_state(slot: &mut [u8], state: TagIter) {
        match state {
            TagIter::Ended => put_numbers(slot, &[0, 0, 0, 0, 0]),
            TagIter::Columns(c) => {
                let keys = c.keys;
                let vals = c.vals;
                put_numbers(
                    slot,
                    &[
                        1,
                        keys.at as u64,
                        keys.end as u64,
                        vals.at as u64,
                        vals.end as u64,
                    ],
                );
            }
            TagIter::KeysVals(c) => put_numbers(slot, &[2, c.at as u64, c.end as u64, 0, 0]),
        }
    }
}

// Tags with their texts, six numbers each, over the record of a block.
pub struct Tags;

impl Items<TagState> for Tags {
    type Opened = WireBlock;

    const SIZE: usize = 48;

    ghost SIZE = { 48 };

    ghost Item = { Tag };

    ghost Put = { Tag };

    ghost shows = { λ s tag. tag };

    ghost words = { tag_item };

    ghost from = { tags_from };

    fn put_one(
        buffer: &[u8],
        block: WireBlock,
        state: TagIter,
        out: &mut [u8],
        at: usize,
    ) -> Result<TagIter, Stop> {
        let Step { said, next } = state.step(buffer, block);
        let Some(tag) = said? else {
            return Err(Stop::Ended);
        };
        put_at(
            out,
            at,
            &[
                tag.raw.key,
                tag.raw.value,
                tag.key.start as u64,
                tag.key.len as u64,
                tag.value.start as u64,
                tag.value.len as u64,
            ],
        );
        Ok(next)
    }

    // The record is tested once for all of them; that a column is inside, each value's word tells.
    fn put_short(
        buffer: &[u8],
        block: WireBlock,
        start: TagIter,
        out: &mut [u8],
        first: usize,
        most: usize,
    ) -> Run<TagIter> {
        let none = Run {
            count: first,
            next: start,
        };
        if !is_inside(buffer, block) {
            return none;
        }
        match start {
            TagIter::Ended => none,
            TagIter::Columns(c) => short_columns(buffer, block, c, out, first, most),
            TagIter::KeysVals(c) => short_pairs(buffer, block, c, out, first, most),
        }
    }

    // Keys and vals both at their end, or a dense node's pairs at theirs or at a key 0 of one byte.
    fn has_ended(buffer: &[u8], block: WireBlock, state: TagIter) -> bool {
        if !is_inside(buffer, block) {
            return false;
        }
        match state {
            TagIter::Ended => true,
            TagIter::Columns(c) => { is_at_end(buffer, c.keys) && is_at_end(buffer, c.vals) }
            TagIter::KeysVals(c) => {
                if wide_value(buffer, c.at, c.end) == 1 {
                    return true;
                }
                is_at_end(buffer, c)
            }
        }
    }

    ghost small = { λ tag. lit≤ tt };
}

// Puts a tag by its two numbers, where both have a text inside the buffer: by where the string table stands and how many strings it has. Else
// nothing is written, and it says that it did not serve.
fn put_texts(
    buffer: &[u8],
    table: usize,
    strings: usize,
    key: usize,
    value: usize,
    out: &mut [u8],
    at: usize,
) -> bool
    requires { table + 8 * strings ≤ length buffer.now }
    ensures { TextsBy buffer.now table strings key value out.old at result out.new }
{
    if strings <= key {
        return false;
    }
    if strings <= value {
        return false;
    }
    let n = buffer.len();
    let k = table + 8 * key;
    let v = table + 8 * value;
    let key_start = u32::read(buffer, k) as usize;
    let key_len = u32::read(buffer, k + 4) as usize;
    let value_start = u32::read(buffer, v) as usize;
    let value_len = u32::read(buffer, v + 4) as usize;
    if !part_fits(n, key_start, key_len) {
        return false;
    }
    if !part_fits(n, value_start, value_len) {
        return false;
    }
    put_at(
        out,
        at,
        &[
            key as u64,
            value as u64,
            key_start as u64,
            key_len as u64,
            value_start as u64,
            value_len as u64,
        ],
    );
    true
}

// Tags of keys and vals by a short way, from number `first` on, up to one that it does not serve. What differs from the other short way is all
// there is: which columns, and how a pair ends.
fn short_columns(
    buffer: &[u8],
    block: WireBlock,
    from: TagColumns,
    out: &mut [u8],
    first: usize,
    most: usize,
) -> Run<TagIter>
    requires most_in_bounds { 48 * most ≤ length out.old }
    requires block_value { is_record_inside buffer.now block ≡ true }
    ensures { ItemsRun (λ tag. tag) tag_item (tags_from buffer.now block) 48 most first (TagIter.Columns from) out.old result.count result.next out.new }
{
    let mut keys = from.keys;
    let mut vals = from.vals;
    let mut count = first;
    while count < most {
        let k = wide_value(buffer, keys.at, keys.end);
        let v = wide_value(buffer, vals.at, vals.end);
        if k == 0 {
            break;
        }
        if v == 0 {
            break;
        }
        let key = (k / 16 % 0x1_0000_0000) as usize;
        let value = (v / 16 % 0x1_0000_0000) as usize;
        if !put_texts(
            buffer,
            block.stringtable,
            block.strings,
            key,
            value,
            out,
            48 * count,
        ) {
            break;
        }
        keys.at += (k % 16) as usize;
        vals.at += (v % 16) as usize;
        count += 1;
    }
    Run {
        count,
        next: TagIter::Columns(TagColumns { keys, vals }),
    }
}

// Tags of a dense node by a short way: a key 0, which ends them, is a word below 16, as one that tells nothing is.
fn short_pairs(
    buffer: &[u8],
    block: WireBlock,
    from: Column,
    out: &mut [u8],
    first: usize,
    most: usize,
) -> Run<TagIter>
    requires most_in_bounds { 48 * most ≤ length out.old }
    requires block_value { is_record_inside buffer.now block ≡ true }
    ensures { ItemsRun (λ tag. tag) tag_item (tags_from buffer.now block) 48 most first (TagIter.KeysVals from) out.old result.count result.next out.new }
{
    let end = from.end;
    let mut at = from.at;
    let mut count = first;
    while count < most {
        let k = wide_value(buffer, at, end);
        if k < 16 {
            break;
        }
        let middle = at + (k % 16) as usize;
        let v = wide_value(buffer, middle, end);
        if v == 0 {
            break;
        }
        let key = (k / 16) as usize;
        let value = (v / 16) as usize;
        if !put_texts(
            buffer,
            block.stringtable,
            block.strings,
            key,
            value,
            out,
            48 * count,
        ) {
            break;
        }
        at = middle + (v % 16) as usize;
        count += 1;
    }
    Run {
        count,
        next: TagIter::KeysVals(Column { at, end }),
    }
}
