// One step of a walk among a group's elements: a dense node with metadata, and what a message says.
ghost use Rattle.std.specs.Prelude.{◌≡◌, true};
ghost use Rattle.lookup.specs.Lookup.{is_record_inside};
ghost use Rattle.walk.specs.State.{state_inside};
ghost use Rattle.walk.specs.Walk.{part_of, elements_by};
ghost use Rattle.walk.specs.Said.{dense_element};
ghost use Rattle.walk.specs.Moves.{left, among_full, full_said_by, message_said_by, Quietly};

use crate::moves::begin_kind;
use crate::state::{BlockElementsIter, DenseNodeIter, FullDenseNodeIter, Range};
use crate::turns::{Move, move_refused, move_with};
use columns::info_rows::InfoColumns;
use columns::zip::RowColumns;
use elements::element::{DenseNode, Element, NodeInfo};
use fields::part::Part;
use kinds::dense_nodes::next_full_dense;
use kinds::state::{DenseColumns, Loose, Messages};
use protobuf::column::Column;
use wire::record::WireBlock;

// A message's range as a part.
pub(crate) fn part_of(range: Range) -> Part
    ensures { result ≡ part_of range }
{
    Part {
        present: true,
        start: range.start,
        len: range.len,
    }
}

// A dense node by the columns behind it, whose sums it is, and its pairs.
pub(crate) fn dense_element(rows: RowColumns, tags: Column, info: NodeInfo) -> Element
    ensures { result ≡ dense_element rows tags info }
{
    Element::DenseNode(DenseNode {
        id: rows.ids.sum,
        lat: rows.lats.sum,
        lon: rows.lons.sum,
        tags,
        info,
    })
}

// A dense node with metadata, with the columns behind it.
fn say_full(d: FullDenseNodeIter, info: NodeInfo, columns: DenseColumns, infos: InfoColumns) -> Move
    ensures { result ≡ full_said_by d info columns infos }
{
    let nodes = DenseNodeIter { columns, ..d.nodes };
    let next = BlockElementsIter::FullDenseNodes(FullDenseNodeIter { nodes, infos });
    let element = dense_element(columns.rows, d.nodes.columns.keyvals, info);
    move_with(d.nodes.of.group, part_of(d.nodes.message), element, next)
}

// Among dense nodes with metadata.
pub(crate) fn walk_full_dense(buffer: &[u8], block: WireBlock, d: FullDenseNodeIter) -> Move
    requires { (is_record_inside buffer.now block ≡ true) × (state_inside buffer.now block (among_full d) ≡ true) }
    ensures { Quietly buffer.now block (left block (among_full d)) (elements_by buffer.now block (among_full d)) result }
{
    match next_full_dense(buffer, d.nodes.columns, d.infos) {
        Err(refusal) => return move_refused(refusal),
        Ok(None) => return begin_kind(true, d.nodes.of, Loose::Nodes),
        Ok(Some((info, columns, infos))) => return say_full(d, info, columns, infos),
    }
}

// A message, with the place behind it.
pub(crate) fn say_message(m: Messages, message: Part, element: Element, at: usize) -> Move
    ensures { result ≡ message_said_by m message element at }
{
    let next = Messages { at, ..m };
    move_with(
        m.of.group,
        message,
        element,
        BlockElementsIter::Messages(next),
    )
}
