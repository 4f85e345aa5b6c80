// Several columns of a message in step: a value of each at a time. All of them are read before their end, or 12, is told. Each function names its
// columns and what it makes of their values; what they share is `in_step`.
ghost use Rattle.std.specs.Prelude.{◌≡◌, true};
ghost use Rattle.columns.specs.Inside.{step_inside, tags_inside, members_inside, rows_inside};
ghost use Rattle.columns.specs.Zip.{tags_ahead, tags_said, members_ahead, members_said, rows_ahead, rows_said};

use crate::sums::Sum;
use crate::told::in_step;
use numbers::signed::Signed;
use protobuf::column::{Column, read_value};
use protobuf::refusal::Refusal;

// Keys and vals of a node, a way or a relation.
#[derive(Clone, Copy)]
pub struct TagColumns {
    pub keys: Column,
    pub vals: Column,
}

// Roles, memids and types of a relation.
#[derive(Clone, Copy)]
pub struct MemberColumns {
    pub roles: Column,
    pub memids: Sum<i64>,
    pub types: Column,
}

// Ids, lats and lons of dense nodes.
#[derive(Clone, Copy)]
pub struct RowColumns {
    pub ids: Sum<i64>,
    pub lats: Sum<i64>,
    pub lons: Sum<i64>,
}

// The next pair of a key and a value, each by its lowest 32 bits, with the columns behind it: 12 where only one of them is there.
pub fn next_tag(s: &[u8], columns: TagColumns) -> Result<Option<((u32, u32), TagColumns)>, Refusal>
    ensures says { tags_said s.now result ≡ tags_ahead s.now columns }
    ensures inside { step_inside (λ r. tags_inside s.now r.1) result ≡ true }
{
    let k = read_value(s, columns.keys);
    let v = read_value(s, columns.vals);
    let Some(((key, keys), (value, vals))) = in_step(k, v)? else {
        return Ok(None);
    };
    let pair = ((key % 0x1_0000_0000) as u32, (value % 0x1_0000_0000) as u32);
    Ok(Some((pair, TagColumns { keys, vals })))
}

// The role and the type of the next member, with the columns behind it, whose sum of memids is its id: 12 where only some of the three are there.
pub fn next_member(
    s: &[u8],
    columns: MemberColumns,
) -> Result<Option<((i32, i32), MemberColumns)>, Refusal>
    ensures says { members_said s.now result ≡ members_ahead s.now columns }
    ensures inside { step_inside (λ r. members_inside s.now r.1) result ≡ true }
{
    let r = read_value(s, columns.roles);
    let m = columns.memids.next(s);
    let t = read_value(s, columns.types);
    let Some(((role, roles), (memids, (kind, types)))) = in_step(r, in_step(m, t))? else {
        return Ok(None);
    };
    let next = MemberColumns {
        roles,
        memids,
        types,
    };
    Ok(Some(((i32::of_bits(role), i32::of_bits(kind)), next)))
}

// The columns behind the next dense node, whose sums are its id, lat and lon: 12 where only some of them are there.
pub fn next_row(s: &[u8], columns: RowColumns) -> Result<Option<RowColumns>, Refusal>
    ensures says { rows_said s.now result ≡ rows_ahead s.now columns }
    ensures inside { step_inside (λ c. rows_inside s.now c) result ≡ true }
{
    let i = columns.ids.next(s);
    let y = columns.lats.next(s);
    let x = columns.lons.next(s);
    let Some((ids, (lats, lons))) = in_step(i, in_step(y, x))? else {
        return Ok(None);
    };
    Ok(Some(RowColumns { ids, lats, lons }))
}
