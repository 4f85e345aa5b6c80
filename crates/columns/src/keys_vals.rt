// keys_vals as it is walked: for each dense node in turn, pairs of a key and a value up to a key 0 or the end.
ghost use Rattle.std.specs.Prelude.{◌≡◌, true};
ghost use Rattle.fields.specs.Outcome.{each};
ghost use Rattle.block.specs.Tags.{rest_of, take_pairs};
ghost use Rattle.columns.specs.InStep.{ahead};
ghost use Rattle.columns.specs.Inside.{column_inside, tag_inside, behind_inside};
ghost use Rattle.columns.specs.KeysVals.{value_of, next_tag, tag_said, behind_of};

use protobuf::column::{Column, read_value};
use protobuf::refusal::Refusal;

// The value of a key, with the column behind it: 2 where the column has ended.
fn dense_value(s: &[u8], key: u64, column: Column) -> Result<(Option<(u64, u64)>, Column), Refusal>
    ensures says { tag_said s.now result ≡ value_of key (ahead s.now column) }
    ensures inside { tag_inside s.now result ≡ true }
{
    let Some((value, next)) = read_value(s, column)? else {
        return Err(Refusal::VarintCut);
    };
    Ok((Some((key, value)), next))
}

// What stands next among one node's pairs, with which the column begins: a pair with the column behind it, or none with the next node's column.
pub fn next_dense_tag(s: &[u8], column: Column) -> Result<(Option<(u64, u64)>, Column), Refusal>
    ensures says { tag_said s.now result ≡ next_tag (ahead s.now column) }
    ensures inside { column_inside s.now column ≡ true → tag_inside s.now result ≡ true }
{
    let Some((key, next)) = read_value(s, column)? else {
        return Ok((None, column));
    };
    if key == 0 {
        return Ok((None, next));
    }
    dense_value(s, key, next)
}

// The column behind one node's pairs.
pub fn pass_pairs(s: &[u8], column: Column) -> Result<Column, Refusal>
    ensures says { behind_of s.now result ≡ each rest_of (take_pairs (ahead s.now column)) }
    ensures inside { column_inside s.now column ≡ true → behind_inside s.now result ≡ true }
{
    let mut at = column;
    loop {
        match next_dense_tag(s, at)? {
            (Some(_), next) => at = next,
            (None, next) => return Ok(next),
        }
    }
}
