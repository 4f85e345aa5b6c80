// The views of messages through C: each answers the numbers of what it read, as the crate `answers` orders them. Room for them is tested before
// the message is read, so that a caller's mistake costs the same whatever the bytes are.
ghost use Rattle.std.specs.Prelude.{◌≡◌};
ghost use Rattle.fields.specs.Outcome.{each};
ghost use Rattle.fields.specs.View.{view_in};
ghost use Rattle.fields.specs.Schema.{node, way, relation, dense_nodes, dense_info, info};
ghost use Rattle.views.specs.Node.{node_at};
ghost use Rattle.views.specs.Way.{way_at};
ghost use Rattle.views.specs.Relation.{relation_at};
ghost use Rattle.views.specs.DenseNodes.{dense_nodes_at};
ghost use Rattle.views.specs.DenseInfo.{dense_info_at};
ghost use Rattle.views.specs.Info.{info_of};
ghost use Rattle.answers.specs.Codes.{Answers};
ghost use Rattle.answers.specs.Views.{node_words, way_words, relation_words, dense_nodes_words, dense_info_words, info_words};

use answers::codes::OUTSIDE;
use answers::layout::put_answer;
use views::dense_info::WireDenseInfo;
use views::dense_nodes::WireDenseNodes;
use views::info::WireInfo;
use views::node::WireNode;
use views::relation::WireRelation;
use views::view::View;
use views::way::WireWay;

// The Node in `len` bytes from `start`: 14 where `out` is too short for its numbers, then what `WireNode::parse` refuses.
#[unsafe(no_mangle)]
pub extern "C" fn nuorpyts_node(buffer: &[u8], start: usize, len: usize, out: &mut [u8]) -> u32
    ensures { Answers 12 node_words out.old (each (node_at start) (view_in node buffer.now start len)) result out.new }
{
    if out.len() < 96 {
        return OUTSIDE;
    }
    put_answer(out, WireNode::parse(buffer, start, len))
}

// The Way in `len` bytes from `start`: 14 where `out` is too short for its numbers, then what `WireWay::parse` refuses.
#[unsafe(no_mangle)]
pub extern "C" fn nuorpyts_way(buffer: &[u8], start: usize, len: usize, out: &mut [u8]) -> u32
    ensures { Answers 22 way_words out.old (each (way_at start) (view_in way buffer.now start len)) result out.new }
{
    if out.len() < 176 {
        return OUTSIDE;
    }
    put_answer(out, WireWay::parse(buffer, start, len))
}

// The Relation in `len` bytes from `start`: 14 where `out` is too short for its numbers, then what `WireRelation::parse` refuses.
#[unsafe(no_mangle)]
pub extern "C" fn nuorpyts_relation(buffer: &[u8], start: usize, len: usize, out: &mut [u8]) -> u32
    ensures { Answers 19 relation_words out.old (each (relation_at start) (view_in relation buffer.now start len)) result out.new }
{
    if out.len() < 152 {
        return OUTSIDE;
    }
    put_answer(out, WireRelation::parse(buffer, start, len))
}

// The DenseNodes in `len` bytes from `start`: 14 where `out` is too short for its numbers, then what `WireDenseNodes::parse` refuses.
#[unsafe(no_mangle)]
pub extern "C" fn nuorpyts_dense_nodes(
    buffer: &[u8],
    start: usize,
    len: usize,
    out: &mut [u8],
) -> u32
    ensures { Answers 15 dense_nodes_words out.old (each (dense_nodes_at start) (view_in dense_nodes buffer.now start len)) result out.new }
{
    if out.len() < 120 {
        return OUTSIDE;
    }
    put_answer(out, WireDenseNodes::parse(buffer, start, len))
}

// The DenseInfo in `len` bytes from `start`: 14 where `out` is too short for its numbers, then what `WireDenseInfo::parse` refuses.
#[unsafe(no_mangle)]
pub extern "C" fn nuorpyts_dense_info(
    buffer: &[u8],
    start: usize,
    len: usize,
    out: &mut [u8],
) -> u32
    ensures { Answers 18 dense_info_words out.old (each (dense_info_at start) (view_in dense_info buffer.now start len)) result out.new }
{
    if out.len() < 144 {
        return OUTSIDE;
    }
    put_answer(out, WireDenseInfo::parse(buffer, start, len))
}

// The Info in `len` bytes from `start`: 14 where `out` is too short for its numbers, then what `WireInfo::parse` refuses.
#[unsafe(no_mangle)]
pub extern "C" fn nuorpyts_info(buffer: &[u8], start: usize, len: usize, out: &mut [u8]) -> u32
    ensures { Answers 12 info_words out.old (each info_of (view_in info buffer.now start len)) result out.new }
{
    if out.len() < 96 {
        return OUTSIDE;
    }
    put_answer(out, WireInfo::parse(buffer, start, len))
}
