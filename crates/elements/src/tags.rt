// The tags of an element: TagIter, DenseTagIter, RawTagIter and DenseRawTagIter of the Rust. One state serves all elements: it stands before
// keys and vals, or before a dense node's pairs in keys_vals. Its pairs are handed out as numbers (`step_raw`), or with the two texts
// (`step`), up to the first pair with a number that has no text. A step refuses a record, columns or a text that are not inside the buffer
// (14), varints that are cut or too long and a dense value that is missing (2, 3), and keys and vals of different counts (12).
ghost use Rattle.std.specs.Prelude.{◌≡◌};
ghost use Rattle.protobuf.specs.Column as protobuf;
ghost use Rattle.columns.specs.InStep.{said_by};
ghost use Rattle.lookup.specs.Lookup.{get_at};
ghost use Rattle.elements.specs.Steps.{said_then};
ghost use Rattle.elements.specs.Tags.{tag_then, raw_tags_from, tags_by, tags_from, raw_tag_said, tag_said, raw_tag_behind, tag_behind, keys_and_vals, tags_start};

use crate::element::Element;
use crate::steps::step_of;
use columns::inside::are_tags_inside;
use columns::keys_vals::next_dense_tag;
use columns::reader::start_column;
use columns::zip::{TagColumns, next_tag};
use fields::part::Part;
use fields::step::Step;
use lookup::by_number::{get, is_inside};
use protobuf::column::Column;
use protobuf::refusal::Refusal;
use wire::record::WireBlock;

// Ended, or at one of two kinds of places: each case is met by its name.
#[derive(Clone, Copy)]
pub enum TagIter {
    Ended,
    Columns(TagColumns),
    KeysVals(Column),
}

// A key and a value by their numbers.
#[derive(Clone, Copy)]
pub struct RawTag {
    pub key: u64,
    pub value: u64,
}

// The same with the parts that their texts stand in.
#[derive(Clone, Copy)]
pub struct Tag {
    pub raw: RawTag,
    pub key: Part,
    pub value: Part,
}

fn columns_of(keys: Part, vals: Part) -> TagIter
    ensures { result ≡ keys_and_vals keys vals }
{
    TagIter::Columns(TagColumns {
        keys: start_column(keys),
        vals: start_column(vals),
    })
}

// The next pair of keys and vals, with the state behind it: 14 unless both are inside, before either is read.
fn next_of_columns(buffer: &[u8], columns: TagColumns) -> Result<Option<(RawTag, TagIter)>, Refusal>
    ensures { said_by (λ x. x.0) (λ x. raw_tags_from buffer.now x.1) result ≡ raw_tags_from buffer.now (TagIter.Columns columns) }
{
    if !are_tags_inside(buffer, columns) {
        return Err(Refusal::Outside);
    }
    let Some(((key, value), next)) = next_tag(buffer, columns)? else {
        return Ok(None);
    };
    let raw = RawTag {
        key: key as u64,
        value: value as u64,
    };
    Ok(Some((raw, TagIter::Columns(next))))
}

// The next pair of a dense node. Of its one column the reader itself tests that it is inside.
fn next_of_dense(buffer: &[u8], column: Column) -> Result<Option<(RawTag, TagIter)>, Refusal>
    ensures { said_by (λ x. x.0) (λ x. raw_tags_from buffer.now x.1) result ≡ raw_tags_from buffer.now (TagIter.KeysVals column) }
{
    let (pair, next) = next_dense_tag(buffer, column)?;
    let Some((key, value)) = pair else {
        return Ok(None);
    };
    Ok(Some((RawTag { key, value }, TagIter::KeysVals(next))))
}

// A pair with its two texts: 14 of either comes before the end, which is where one of them has none.
fn look_up(buffer: &[u8], block: WireBlock, raw: RawTag) -> Result<Option<Tag>, Refusal>
    ensures { (others : protobuf.Column Tag) → said_then result others ≡ tag_then raw (get_at buffer.now block raw.key) (get_at buffer.now block raw.value) others }
{
    let key = get(buffer, block, raw.key as usize)?;
    let value = get(buffer, block, raw.value as usize)?;
    let Some(key) = key else {
        return Ok(None);
    };
    let Some(value) = value else {
        return Ok(None);
    };
    Ok(Some(Tag { raw, key, value }))
}

impl TagIter {
    // The state before an element's tags.
    pub fn new(element: Element) -> Self
        ensures { result ≡ tags_start element }
    {
        match element {
            Element::DenseNode(d) => TagIter::KeysVals(d.tags),
            Element::Node(v) => columns_of(v.keys, v.vals),
            Element::Way(v) => columns_of(v.keys, v.vals),
            Element::Relation(v) => columns_of(v.keys, v.vals),
        }
    }

    // The next pair of numbers, with the state behind it.
    fn next_pair(self, buffer: &[u8]) -> Result<Option<(RawTag, TagIter)>, Refusal>
        ensures { said_by (λ x. x.0) (λ x. raw_tags_from buffer.now x.1) result ≡ raw_tags_from buffer.now self }
    {
        match self {
            TagIter::Ended => Ok(None),
            TagIter::Columns(c) => next_of_columns(buffer, c),
            TagIter::KeysVals(c) => next_of_dense(buffer, c),
        }
    }

    // The next pair of numbers with the state behind it: 14 unless all columns of the state are inside the buffer, then 2 and 3 of the
    // varints, then 12 where keys and vals have different counts; of a dense node 2 where a key has no value. Behind ended and behind a
    // refusal the state is the ended one, and a step on that says ended whatever the buffer is.
    pub fn step_raw(self, buffer: &[u8]) -> Step<RawTag, TagIter>
        ensures says { raw_tag_said buffer.now result ≡ raw_tags_from buffer.now self }
        ensures behind { raw_tag_behind result ≡ TagIter.Ended }
    {
        step_of(self.next_pair(buffer), TagIter::Ended)
    }

    // The same with the texts, of a state that has not ended: 14 unless the record is inside, before the state is looked at.
    fn with_texts(self, buffer: &[u8], block: WireBlock) -> Result<Option<(Tag, TagIter)>, Refusal>
        ensures { said_by (λ x. x.0) (λ x. tags_from buffer.now block x.1) result ≡ tags_by buffer.now block self }
    {
        if !is_inside(buffer, block) {
            return Err(Refusal::Outside);
        }
        let Some((raw, next)) = self.next_pair(buffer)? else {
            return Ok(None);
        };
        let Some(tag) = look_up(buffer, block, raw)? else {
            return Ok(None);
        };
        Ok(Some((tag, next)))
    }

    // The next pair with its two texts and the state behind it: 14 unless the record is inside the buffer, then what `step_raw` refuses, then
    // 14 where an entry of the table names a text outside the buffer. It says ended at the first pair with a number that has no text. Behind
    // ended and behind a refusal the state is the ended one, and a step on that says ended whatever the buffer and the record are.
    pub fn step(self, buffer: &[u8], block: WireBlock) -> Step<Tag, TagIter>
        ensures says { tag_said buffer.now block result ≡ tags_from buffer.now block self }
        ensures behind { tag_behind result ≡ TagIter.Ended }
    {
        match self {
            TagIter::Ended => step_of(Ok(None), self),
            _ => step_of(self.with_texts(buffer, block), TagIter::Ended),
        }
    }
}
