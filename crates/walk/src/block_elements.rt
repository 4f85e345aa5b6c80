// The walk of a block: BlockElementsIter of the Rust. A step hands out the next element with the state behind it.
ghost use Rattle.std.specs.Prelude.{◌≡◌, ◌≢◌, true, false, List, ℕ};
ghost use Rattle.lookup.specs.Lookup.{is_record_inside};
ghost use Rattle.kinds.specs.declared.state.Messages.{Messages};
ghost use Rattle.walk.specs.State.{state_inside};
ghost use Rattle.walk.specs.Walk.{fresh, elements_by, tested_from, element_said, element_behind};
ghost use Rattle.walk.specs.Whole.{StepPost, NextPost, Accepted, Whole};
ghost use Rattle.walk.specs.Said.{dense_said_by};
ghost use Rattle.walk.specs.Moves.{ended_walk, refused_step, among_messages, moves_to, Turns};

use crate::inside::state_inside;
use crate::moves::{behind_kind, enter, messages_of};
use crate::state::{Between, BlockElementsIter, DenseNodeIter};
use crate::steps::{dense_element, part_of, say_message, walk_full_dense};
use crate::turns::{Move, move_out, move_to};
use elements::element::{Element, NodeInfo};
use fields::part::Part;
use kinds::dense_nodes::next_dense;
use kinds::messages::next_loose;
use kinds::state::{DenseColumns, Loose};
use lookup::by_number::is_inside;
use protobuf::refusal::Refusal;
use wire::record::WireBlock;

// What a step says.
#[derive(Clone, Copy)]
pub enum Said {
    // An element, with its group's number and its message's part.
    Element {
        group: usize,
        message: Part,
        element: Element,
    },
    Ended,
    Refused(Refusal),
}

// Every answer hands back a state: behind ended and behind a refusal it is the ended one.
#[derive(Clone, Copy)]
pub struct ElementStep {
    pub said: Said,
    pub next: BlockElementsIter,
}

// A refusal: behind it the state is the ended one.
fn refuse(refusal: Refusal) -> ElementStep
    ensures { result ≡ refused_step refusal }
{
    ElementStep {
        said: Said::Refused(refusal),
        next: BlockElementsIter::Ended,
    }
}

// A plain dense node, with the columns behind it.
fn say_dense(nodes: DenseNodeIter, columns: DenseColumns) -> ElementStep
    ensures { result ≡ dense_said_by nodes columns }
{
    let element = dense_element(columns.rows, nodes.columns.keyvals, NodeInfo::Unread);
    ElementStep {
        said: Said::Element {
            group: nodes.of.group,
            message: part_of(nodes.message),
            element,
        },
        next: BlockElementsIter::DenseNodes(DenseNodeIter { columns, ..nodes }),
    }
}

// One turn of a state, which stays where it is among plain dense nodes. Messages stay too: `advance` makes their turns itself.
// Each arm binds what its case alone has.
fn turn(buffer: &[u8], block: WireBlock, state: BlockElementsIter) -> Move
    requires { (is_record_inside buffer.now block ≡ true) × (state_inside buffer.now block state ≡ true) }
    ensures turns { ((m : Messages) → state ≢ among_messages m) → Turns buffer.now block state result }
    ensures messages { (m : Messages) → state ≡ among_messages m → result ≡ moves_to state }
{
    match state {
        BlockElementsIter::Ended => return move_out(),
        BlockElementsIter::Between(b) => return enter(buffer, block, b),
        BlockElementsIter::DenseNodes(_) => return move_to(state),
        BlockElementsIter::FullDenseNodes(d) => return walk_full_dense(buffer, block, d),
        BlockElementsIter::Messages(_) => return move_to(state),
    }
}

// The step of a state that is inside. It makes one turn after the other until there is something to say; a turn that moves is a `step` of the
// Rust that answers None. Plain dense nodes are stepped over here, by their columns alone, and so are the kinds of messages that a group has none
// of: a turn's answer would pass through memory for each.
fn advance(buffer: &[u8], block: WireBlock, mut state: BlockElementsIter) -> ElementStep
    requires { (is_record_inside buffer.now block ≡ true) × (state_inside buffer.now block state ≡ true) }
    ensures says { element_said buffer.now block result ≡ elements_by buffer.now block state }
    ensures behind { element_behind result ≡ ended_walk }
{
    loop {
        match state {
            BlockElementsIter::DenseNodes(nodes) => {
                match next_dense(buffer, nodes.columns) {
                    Ok(Some(next)) => return say_dense(nodes, next),
                    Ok(None) => state = messages_of(false, nodes.of, Loose::Nodes),
                    Err(refusal) => return refuse(refusal),
                }
            }
            BlockElementsIter::Messages(m) => match next_loose(buffer, m) {
                Ok(Some((message, element, at))) => {
                    let moved = say_message(m, message, element, at);
                    return ElementStep {
                        said: moved.said,
                        next: moved.next,
                    };
                }
                Ok(None) => state = behind_kind(m.full, m.of, m.kind),
                Err(refusal) => return refuse(refusal),
            },
            _ => {
                let m = turn(buffer, block, state);
                let next = m.next;
                if m.quiet {
                    state = next;
                } else {
                    let said = m.said;
                    return ElementStep { said, next };
                }
            }
        }
    }
}

// The step of a state that has not ended: 14 unless record and state are inside.
fn tested(buffer: &[u8], block: WireBlock, state: BlockElementsIter) -> ElementStep
    ensures says { element_said buffer.now block result ≡ tested_from buffer.now block state }
    ensures behind { element_behind result ≡ ended_walk }
{
    if !is_inside(buffer, block) {
        return refuse(Refusal::Outside);
    }
    if !state_inside(buffer, block, state) {
        return refuse(Refusal::Outside);
    }
    advance(buffer, block, state)
}

impl BlockElementsIter {
    // The state that stands before a block's first group, in a walk with metadata. It refuses nothing: a step tests all.
    pub fn new() -> Self
        ensures { result ≡ fresh true }
    {
        BlockElementsIter::Between(Between {
            full: true,
            group: 0,
        })
    }

    // The same in a plain walk, which hands out no metadata.
    pub fn new_skip_metadata() -> Self
        ensures { result ≡ fresh false }
    {
        BlockElementsIter::Between(Between {
            full: false,
            group: 0,
        })
    }

    // The next element with the state behind it, that the walk has ended, or a refusal: 14 where record or state is outside the buffer, before
    // anything is read. Behind the last two the state is the ended one, and a step on it says ended whatever the buffer is. The second clause is
    // demand 3 itself: what whole runs of these calls hand out, over this buffer and record and any others of accepted blocks.
    pub fn step(self, buffer: &[u8], block: WireBlock) -> ElementStep
        ensures answer { StepPost buffer.now block self result }
        ensures whole { (b : List ℕ) (n : ℕ) (s' : List ℕ) (r' : WireBlock) (b' : List ℕ) (n' : ℕ) → Accepted buffer.now block b n → Accepted s' r' b' n' → Whole buffer.now block b n s' r' b' n' }
    {
        match self {
            BlockElementsIter::Ended => {
                return ElementStep {
                    said: Said::Ended,
                    next: self,
                };
            }
            _ => return tested(buffer, block, self),
        }
    }

    // The same: here a step is never quiet.
    pub fn next(self, buffer: &[u8], block: WireBlock) -> ElementStep
        ensures answer { NextPost buffer.now block self result }
        ensures whole { (b : List ℕ) (n : ℕ) (s' : List ℕ) (r' : WireBlock) (b' : List ℕ) (n' : ℕ) → Accepted buffer.now block b n → Accepted s' r' b' n' → Whole buffer.now block b n s' r' b' n' }
    {
        self.step(buffer, block)
    }
}
