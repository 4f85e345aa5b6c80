// PrimitiveBlock: the block's own fields.
ghost use Rattle.std.specs.Prelude.{◌≡◌, ◌+◌, ◌^◌, ◌≤◌, ◌<◌, IfOk, Ok, Err};
ghost use Rattle.protobuf.specs.declared.refusal.Refusal.TheVariants.{Granularity};
ghost use Rattle.numbers.specs.Choose.{choose};
ghost use Rattle.numbers.specs.Signed.{is_int32};
ghost use Rattle.message.specs.Answers.{field_by};
ghost use Rattle.fields.specs.Outcome.{each};
ghost use Rattle.fields.specs.View.{Slots, store, view};
ghost use Rattle.fields.specs.Schema.{primitive_block};
ghost use Rattle.wire.specs.Block.{block_fields};

use fields::part::{NONE, Part};
use fields::schema::primitive_block;
use message::field::{Field, next_field};
use numbers::signed::is_int32;
use protobuf::refusal::Refusal;

// The block's slots, numbers as read, with the defaults of a field that is missing.
#[derive(Clone, Copy)]
pub struct BlockFields {
    pub strings: Part,
    pub groups: usize,
    pub granularity: u64,
    pub dategranularity: u64,
    pub latoffset: u64,
    pub lonoffset: u64,
}

// A granularity's number as it was read: 8 where int32 does not hold it.
fn granularity(value: u64) -> Result<u64, Refusal>
    ensures { result ≡ choose (is_int32 value) (Ok value) (Err Granularity) }
{
    if is_int32(value) {
        Ok(value)
    } else {
        Err(Refusal::Granularity)
    }
}

// One field, by its number with its wire type; any other pair is passed over. The last string table wins.
// Each arm binds what its case alone has.
fn store_block(v: BlockFields, field: Field) -> Result<BlockFields, Refusal>
    requires { v.groups + 1 < 2 ^ 64 }
    ensures stores { (slots : Slots) → v ≡ block_fields slots → result ≡ each block_fields (store primitive_block slots (field_by field.tag field.value field.start field.len)) }
    ensures counts { IfOk result λ w. w.groups ≤ v.groups + 1 }
{
    let value = field.value;
    match field.tag {
        primitive_block::STRING_TABLE => {
            let strings = Part {
                present: true,
                start: field.start,
                len: field.len,
            };
            Ok(BlockFields { strings, ..v })
        }
        primitive_block::GROUP => Ok(BlockFields {
            groups: v.groups + 1,
            ..v
        }),
        primitive_block::GRANULARITY => Ok(BlockFields {
            granularity: granularity(value)?,
            ..v
        }),
        primitive_block::DATE_GRANULARITY => Ok(BlockFields {
            dategranularity: granularity(value)?,
            ..v
        }),
        primitive_block::LAT_OFFSET => Ok(BlockFields {
            latoffset: value,
            ..v
        }),
        primitive_block::LON_OFFSET => Ok(BlockFields {
            lonoffset: value,
            ..v
        }),
        _ => Ok(v),
    }
}

// The block's fields, one after the other.
pub fn scan_block_fields(s: &[u8]) -> Result<BlockFields, Refusal>
    ensures { result ≡ each block_fields (view primitive_block s.now) }
{
    let mut v = BlockFields {
        strings: NONE,
        groups: 0,
        granularity: 100,
        dategranularity: 1000,
        latoffset: 0,
        lonoffset: 0,
    };
    let mut at = 0;
    while let Some((field, next)) = next_field(s, at)? {
        v = store_block(v, field)?;
        at = next;
    }
    Ok(v)
}
