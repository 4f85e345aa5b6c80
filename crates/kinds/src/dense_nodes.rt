// The dense nodes of a group: DenseNodeIter of the Rust, plain and with metadata.
ghost use Rattle.std.specs.Prelude.{◌≡◌, true, ◌+◌, ◌%◌, ◌^◌, ◌<◌};
ghost use Rattle.fields.specs.Outcome.{each};
ghost use Rattle.block.specs.Tags.{rest_of, take_pairs};
ghost use Rattle.block.specs.Infos.{next_info};
ghost use Rattle.columns.specs.InStep.{ahead};
ghost use Rattle.columns.specs.Inside.{infos_inside, behind_inside};
ghost use Rattle.columns.specs.KeysVals.{behind_of};
ghost use Rattle.columns.specs.Zip.{infos_ahead};
ghost use Rattle.kinds.specs.Dense.{dense_ahead, dense_said, full_dense_ahead};
ghost use Rattle.columns.specs.Zip.{moved_sum};
ghost use Rattle.kinds.specs.Said.{zero_next, NodeSaid, row_read, read_row, row_inside, dense_step_inside, RefusedRow, full_dense_said, full_step_inside};

use crate::state::DenseColumns;
use columns::info_rows::{InfoColumns, next_info};
use columns::keys_vals::pass_pairs;
use columns::sums::Sum;
use columns::zip::{RowColumns, next_row};
use elements::element::{DenseNodeInfo, NodeInfo};
use numbers::signed::Signed;
use protobuf::column::{Column, short_value};
use protobuf::refusal::Refusal;

// Whether there is a next node, which is so where `found` is not 0, and the columns behind it. A number, so that what a loop carries has no gaps.
#[derive(Clone, Copy)]
pub struct NextNode {
    pub found: u64,
    pub columns: DenseColumns,
}

// Whether the next value of keys_vals is 0 in one byte, as it is where a node has no pairs. A column that is outside has no next value.
pub fn has_no_pairs(buffer: &[u8], keyvals: Column) -> bool
    ensures { result ≡ zero_next buffer.now keyvals }
{
    let at = keyvals.at;
    let end = keyvals.end;
    if end <= at {
        return false;
    }
    if buffer.len() < end {
        return false;
    }
    buffer[at] == 0
}

// Past one node's pairs: most nodes have none, and then one byte is passed.
fn pass_node(buffer: &[u8], keyvals: Column) -> Result<Column, Refusal>
    ensures says { behind_of buffer.now result ≡ each rest_of (take_pairs (ahead buffer.now keyvals)) }
    ensures inside { behind_inside buffer.now result ≡ true }
{
    if has_no_pairs(buffer, keyvals) {
        return Ok(Column {
            at: keyvals.at + 1,
            end: keyvals.end,
        });
    }
    pass_pairs(buffer, keyvals)
}

// The next dense node of a plain walk: its row, then its pairs. The sums of the columns behind it are the node, and its pairs stand where
// keys_vals of these columns does. What a column of either refuses is told where it is read, 14 where the column is outside among them, and
// 12 behind the row. Where all of id, lat and lon have ended, keys_vals is not looked at.
pub fn next_dense(buffer: &[u8], columns: DenseColumns) -> Result<Option<DenseColumns>, Refusal>
    ensures says { dense_said buffer.now columns result ≡ dense_ahead buffer.now columns }
    ensures inside { dense_step_inside buffer.now result ≡ true }
{
    let Some(rows) = next_row(buffer, columns.rows)? else {
        return Ok(None);
    };
    let keyvals = pass_node(buffer, columns.keyvals)?;
    Ok(Some(DenseColumns { rows, keyvals }))
}

// The next dense node by `next_dense`, which also tells the end and refusals.
fn any_node(buffer: &[u8], columns: DenseColumns) -> NextNode
    ensures { NodeSaid buffer.now columns result }
{
    match next_dense(buffer, columns) {
        Ok(Some(next)) => NextNode {
            found: 1,
            columns: next,
        },
        Ok(None) => NextNode { found: 0, columns },
        Err(_) => NextNode { found: 0, columns },
    }
}

// The running sum behind a value that a word tells (`short_value`).
fn move_sum(state: Sum<i64>, word: u64) -> Sum<i64>
    requires { state.column.at + word % 16 < 2 ^ 64 }
    ensures { result ≡ moved_sum state word }
{
    Sum {
        column: Column {
            at: state.column.at + (word % 16) as usize,
            end: state.column.end,
        },
        sum: state.sum.plus(i64::of_zigzag(word / 16)),
    }
}

// The next dense node of a plain walk, where there is one: the columns behind it, and what was found is not 0. Most nodes have short values,
// and those are taken without the answers of readers in step, which pass through memory.
pub fn next_node(buffer: &[u8], columns: DenseColumns) -> NextNode
    ensures { NodeSaid buffer.now columns result }
{
    let rows = columns.rows;
    let keyvals = columns.keyvals;
    let id = short_value(buffer, rows.ids.column.at, rows.ids.column.end);
    let lat = short_value(buffer, rows.lats.column.at, rows.lats.column.end);
    let lon = short_value(buffer, rows.lons.column.at, rows.lons.column.end);
    if id == 0 {
        return any_node(buffer, columns);
    }
    if lat == 0 {
        return any_node(buffer, columns);
    }
    if lon == 0 {
        return any_node(buffer, columns);
    }
    let Ok(behind) = pass_node(buffer, keyvals) else {
        return NextNode { found: 0, columns };
    };
    NextNode {
        found: 1,
        columns: DenseColumns {
            rows: RowColumns {
                ids: move_sum(rows.ids, id),
                lats: move_sum(rows.lats, lat),
                lons: move_sum(rows.lons, lon),
            },
            keyvals: behind,
        },
    }
}

// The info row of the next node: its values are the sums of the columns behind it.
fn read_info(buffer: &[u8], infos: InfoColumns) -> Result<(NodeInfo, InfoColumns), Refusal>
    ensures says { row_read buffer.now result ≡ read_row (next_info (infos_ahead buffer.now infos)) }
    ensures inside { infos_inside buffer.now infos ≡ true → row_inside buffer.now result ≡ true }
{
    let (row, next) = next_info(buffer, infos)?;
    let Some(row) = row else {
        return Ok((NodeInfo::Missing, next));
    };
    let info = NodeInfo::Row(DenseNodeInfo {
        version: row.version,
        timestamp: next.timestamp.sum,
        changeset: next.changeset.sum,
        uid: next.uid.sum,
        user: next.user.sum,
        visible: row.visible,
    });
    Ok((info, next))
}

// The refusal of a row: that of its own columns at once, 12 behind the info row.
fn row_refusal(buffer: &[u8], infos: InfoColumns, refusal: Refusal) -> Refusal
    ensures { RefusedRow buffer.now infos refusal result }
{
    if refusal != Refusal::Counts {
        return refusal;
    }
    match read_info(buffer, infos) {
        Err(n) => n,
        Ok(_) => refusal,
    }
}

// The next dense node of a full walk: its row, its info row, then its pairs, with the columns behind all three. The end and 12 are told
// behind the info row, and a node without info is a node.
pub fn next_full_dense(
    buffer: &[u8],
    columns: DenseColumns,
    infos: InfoColumns,
) -> Result<Option<(NodeInfo, DenseColumns, InfoColumns)>, Refusal>
    ensures says { full_dense_said buffer.now columns result ≡ full_dense_ahead buffer.now columns infos }
    ensures inside { infos_inside buffer.now infos ≡ true → full_step_inside buffer.now result ≡ true }
{
    let row = match next_row(buffer, columns.rows) {
        Err(refusal) => return Err(row_refusal(buffer, infos, refusal)),
        Ok(row) => row,
    };
    let (info, others) = read_info(buffer, infos)?;
    let Some(rows) = row else {
        return Ok(None);
    };
    let keyvals = pass_node(buffer, columns.keyvals)?;
    Ok(Some((info, DenseColumns { rows, keyvals }, others)))
}
