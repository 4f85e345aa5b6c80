// Plain dense nodes that follow one another, put into an answer's slice: they are what a camera draws most of, so their columns alone go
// round.
ghost use Rattle.std.specs.Prelude.{◌≡◌, ◌*◌, ◌≤◌, length};
ghost use Rattle.answers.specs.Words.{filled_at};
ghost use Rattle.walk.specs.declared.state.BlockElementsIter.TheVariants.{DenseNodes};
ghost use Rattle.walk.specs.Walk.{elements_from};
ghost use Rattle.walk_calls.specs.Steps.{put_words};
ghost use Rattle.walk_calls.specs.Fills.{node_put, at_columns, Fills, FillsInside};

use answers::words::put_at;
use calls::run::Run;
use columns::zip::RowColumns;
use kinds::dense_nodes::next_node;
use kinds::state::DenseColumns;
use lookup::by_number::is_inside;
use numbers::signed::Signed;
use protobuf::column::Column;
use walk::inside::dense_inside;
use walk::state::DenseNodeIter;
use wire::record::WireBlock;

// A plain dense node, by the columns behind it, whose sums it is, and its pairs' reader: ten numbers at a place of `out`.
fn put_node(out: &mut [u8], at: usize, nodes: DenseNodeIter, tags: Column, rows: RowColumns)
    ensures { out.new ≡ filled_at out.old at (put_words (node_put nodes tags rows)) }
{
    put_at(
        out,
        at,
        &[
            0,
            nodes.of.group as u64,
            nodes.message.start as u64,
            nodes.message.len as u64,
            rows.ids.sum.bits(),
            rows.lats.sum.bits(),
            rows.lons.sum.bits(),
            tags.at as u64,
            tags.end as u64,
            0,
        ],
    );
}

// Node after node. It stops where there is no next one; what comes there, the end or a number, is told by a step.
fn fill_nodes(buffer: &[u8], nodes: DenseNodeIter, out: &mut [u8], most: usize) -> Run<DenseColumns>
    requires { 208 * most ≤ length out.old }
    ensures { FillsInside buffer.now most (DenseNodes nodes) out.old result.count (DenseNodes (at_columns nodes result.next)) out.new }
{
    let mut columns = nodes.columns;
    let mut count = 0;
    while count < most {
        let n = next_node(buffer, columns);
        if n.found == 0 {
            return Run {
                count,
                next: columns,
            };
        }
        put_node(out, 208 * count, nodes, columns.keyvals, n.columns.rows);
        columns = n.columns;
        count += 1;
    }
    Run {
        count,
        next: columns,
    }
}

// The nodes that a state has before it: none where record or state is outside, which a step tells.
pub(crate) fn put_nodes_of(
    buffer: &[u8],
    block: WireBlock,
    nodes: DenseNodeIter,
    out: &mut [u8],
    most: usize,
) -> Run<DenseColumns>
    requires { 208 * most ≤ length out.old }
    ensures { Fills buffer.now (elements_from buffer.now block) most (DenseNodes nodes) out.old result.count (DenseNodes (at_columns nodes result.next)) out.new }
{
    let none = Run {
        count: 0,
        next: nodes.columns,
    };
    if !is_inside(buffer, block) {
        return none;
    }
    if !dense_inside(buffer, block, nodes) {
        return none;
    }
    fill_nodes(buffer, nodes, out, most)
}
