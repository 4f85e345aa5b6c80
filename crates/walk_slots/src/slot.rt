// The state of a walk in a slot that the caller lends, 272 bytes: read from its numbers, and put. Numbers that no state has are read as a
// state that is outside every buffer, so that a step on it gives 14.
ghost use Rattle.std.specs.Prelude.{◌≡◌, [], ◌∷◌, ◌≤◌, length};
ghost use Rattle.answers.specs.Words.{filled};
ghost use Rattle.walk.specs.declared.state.BlockElementsIter.TheVariants as walk;
ghost use Rattle.walk_slots.specs.Held.{NodesHeld, InfosHeld};
ghost use Rattle.walk_slots.specs.Slot.{
  outside_messages,
  range_at,
  nodes_at,
  infos_at,
  full_nodes_at,
  messages_at,
  dense_at,
  live_at,
  walk_at,
  walk_by,
  walk_over,
  loose_phase,
  nodes_words,
  infos_words,
  walk_words,
};

use answers::words::{put_at, put_numbers};
use calls::slot::{Slot, column_in, sum_in};
use columns::info_rows::InfoColumns;
use columns::sums::Sum;
use columns::zip::RowColumns;
use kinds::state::{DenseColumns, GroupRangeAt, Loose, Messages};
use numbers::little::Little;
use numbers::signed::{Signed, is_int32};
use walk::state::{Between, BlockElementsIter, DenseNodeIter, FullDenseNodeIter, Range};

// What a slot's first numbers tell: the whole state but for the columns of dense nodes. Functions that branch answer this and not the
// state, which is large (docs/PROVING.md, Walks).
#[derive(Clone, Copy)]
pub enum PhaseIn {
    Ended,
    Between(Between),
    DenseNodes,
    FullDenseNodes,
    Messages(Messages),
}

// A state that is outside every buffer: its place is behind its group.
fn outside() -> PhaseIn
    ensures { result ≡ PhaseIn.Messages outside_messages }
{
    PhaseIn::Messages(Messages {
        full: false,
        of: GroupRangeAt {
            group: 0,
            start: 0,
            len: 0,
        },
        kind: Loose::Nodes,
        at: 1,
    })
}

fn range_in(slot: &[u8]) -> GroupRangeAt
    ensures { result ≡ range_at slot.now }
{
    GroupRangeAt {
        group: u64::read(slot, 16) as usize,
        start: u64::read(slot, 24) as usize,
        len: u64::read(slot, 32) as usize,
    }
}

// The plain dense nodes that a slot's numbers tell of.
pub fn nodes_in(slot: &[u8]) -> DenseNodeIter
    ensures { result ≡ nodes_at slot.now }
{
    DenseNodeIter {
        of: range_in(slot),
        message: Range {
            start: u64::read(slot, 40) as usize,
            len: u64::read(slot, 48) as usize,
        },
        columns: DenseColumns {
            rows: RowColumns {
                ids: sum_in(slot, 56, 64, 72),
                lats: sum_in(slot, 80, 88, 96),
                lons: sum_in(slot, 104, 112, 120),
            },
            keyvals: column_in(slot, 128, 136),
        },
    }
}

fn infos_in(slot: &[u8]) -> InfoColumns
    ensures { result ≡ infos_at slot.now }
{
    InfoColumns {
        version: column_in(slot, 144, 152),
        timestamp: sum_in(slot, 160, 168, 176),
        changeset: sum_in(slot, 184, 192, 200),
        uid: sum_in(slot, 208, 216, 224),
        user: sum_in(slot, 232, 240, 248),
        visible: column_in(slot, 256, 264),
    }
}

fn full_nodes_in(slot: &[u8]) -> FullDenseNodeIter
    ensures { result ≡ full_nodes_at slot.now }
{
    FullDenseNodeIter {
        nodes: nodes_in(slot),
        infos: infos_in(slot),
    }
}

fn messages_in(slot: &[u8], full: bool, kind: Loose) -> PhaseIn
    ensures { walk_by slot.now result ≡ messages_at slot.now full kind }
{
    PhaseIn::Messages(Messages {
        full,
        of: range_in(slot),
        kind,
        at: u64::read(slot, 40) as usize,
    })
}

// Among dense nodes: with metadata the sums of uid and user_sid are int32.
fn dense_in(slot: &[u8], full: bool) -> PhaseIn
    ensures { walk_by slot.now result ≡ dense_at slot.now full }
{
    if !full {
        return PhaseIn::DenseNodes;
    }
    if !is_int32(u64::read(slot, 224)) {
        return outside();
    }
    if !is_int32(u64::read(slot, 248)) {
        return outside();
    }
    PhaseIn::FullDenseNodes
}

// The state of a phase that is not the ended one.
// Each arm binds what its case alone has.
fn live_in(slot: &[u8], phase: u64, full: bool) -> PhaseIn
    ensures { walk_by slot.now result ≡ live_at slot.now phase full }
{
    match phase {
        1 => PhaseIn::Between(Between {
            full,
            group: u64::read(slot, 16) as usize,
        }),
        2 => dense_in(slot, full),
        3 => messages_in(slot, full, Loose::Nodes),
        4 => messages_in(slot, full, Loose::Ways),
        5 => messages_in(slot, full, Loose::Relations),
        _ => outside(),
    }
}

// By the phase and the flag. Of an ended state the other numbers are not looked at.
pub fn phase_in(slot: &[u8]) -> PhaseIn
    ensures { walk_by slot.now result ≡ walk_at slot.now }
{
    let phase = u64::read(slot, 0);
    let full = u64::read(slot, 8);
    if phase == 0 {
        return PhaseIn::Ended;
    }
    match full {
        0 => live_in(slot, phase, false),
        1 => live_in(slot, phase, true),
        _ => outside(),
    }
}

// A kind's phase: a number of the slot alone.
fn loose_phase(kind: Loose) -> u64
    ensures { result ≡ loose_phase kind }
{
    match kind {
        Loose::Nodes => 3,
        Loose::Ways => 4,
        Loose::Relations => 5,
    }
}

// The first 18 numbers among dense nodes. They are ones that the machine holds, so they are read back; the same holds of the infos'.
fn nodes_numbers(d: DenseNodeIter, full: u64) -> [u64; 18]
    ensures numbers { result ≡ 2 ∷ full ∷ nodes_words d [] }
    ensures held { NodesHeld d }
{
    [
        2,
        full,
        d.of.group as u64,
        d.of.start as u64,
        d.of.len as u64,
        d.message.start as u64,
        d.message.len as u64,
        d.columns.rows.ids.column.at as u64,
        d.columns.rows.ids.column.end as u64,
        d.columns.rows.ids.sum.bits(),
        d.columns.rows.lats.column.at as u64,
        d.columns.rows.lats.column.end as u64,
        d.columns.rows.lats.sum.bits(),
        d.columns.rows.lons.column.at as u64,
        d.columns.rows.lons.column.end as u64,
        d.columns.rows.lons.sum.bits(),
        d.columns.keyvals.at as u64,
        d.columns.keyvals.end as u64,
    ]
}

fn infos_numbers(i: InfoColumns) -> [u64; 16]
    ensures numbers { result ≡ infos_words i }
    ensures held { InfosHeld i }
{
    [
        i.version.at as u64,
        i.version.end as u64,
        i.timestamp.column.at as u64,
        i.timestamp.column.end as u64,
        i.timestamp.sum.bits(),
        i.changeset.column.at as u64,
        i.changeset.column.end as u64,
        i.changeset.sum.bits(),
        i.uid.column.at as u64,
        i.uid.column.end as u64,
        i.uid.sum.bits(),
        i.user.column.at as u64,
        i.user.column.end as u64,
        i.user.sum.bits(),
        i.visible.at as u64,
        i.visible.end as u64,
    ]
}

// Dense nodes with metadata: the infos' numbers stand behind the nodes', where there is room for both.
fn put_full(slot: &mut [u8], f: FullDenseNodeIter)
    ensures after { slot.new ≡ filled slot.old (walk_words (BlockElementsIter.FullDenseNodes f)) }
    ensures back { 272 ≤ length slot.old → walk_at slot.new ≡ BlockElementsIter.FullDenseNodes f }
{
    if slot.len() < 272 {
        return;
    }
    put_numbers(slot, &nodes_numbers(f.nodes, 1));
    put_at(slot, 144, &infos_numbers(f.infos));
}

// Puts the numbers of a state among plain dense nodes; a slot that is too short for them stays as it was.
pub fn put_nodes(slot: &mut [u8], d: DenseNodeIter)
    ensures after { slot.new ≡ filled slot.old (walk_words (BlockElementsIter.DenseNodes d)) }
    ensures back { 272 ≤ length slot.old → walk_at slot.new ≡ BlockElementsIter.DenseNodes d }
{
    put_numbers(slot, &nodes_numbers(d, 0));
}

// The same among messages.
pub fn put_messages(slot: &mut [u8], m: Messages)
    ensures after { slot.new ≡ filled slot.old (walk_words (BlockElementsIter.Messages m)) }
    ensures back { 272 ≤ length slot.old → walk_at slot.new ≡ BlockElementsIter.Messages m }
{
    let kind = m.kind;
    put_numbers(
        slot,
        &[
            loose_phase(kind),
            m.full as u64,
            m.of.group as u64,
            m.of.start as u64,
            m.of.len as u64,
            m.at as u64,
        ],
    );
}

// The state in a slot's 272 bytes.
pub struct WalkState;

impl Slot for WalkState {
    type State = BlockElementsIter;

    const WIDTH: usize = 272;

    ghost WIDTH = { 272 };

    ghost words = { walk_words };

    ghost state_at = { walk_at };

    ghost over = { walk.Ended };

    ghost is_over = { walk_over };

    fn over() -> BlockElementsIter {
        BlockElementsIter::Ended
    }

    fn is_over(state: BlockElementsIter) -> bool {
        match state {
            BlockElementsIter::Ended => true,
            BlockElementsIter::Between(_) => false,
            BlockElementsIter::DenseNodes(_) => false,
            BlockElementsIter::FullDenseNodes(_) => false,
            BlockElementsIter::Messages(_) => false,
        }
    }

    fn state_in(slot: &[u8]) -> BlockElementsIter {
        match phase_in(slot) {
            PhaseIn::Ended => BlockElementsIter::Ended,
            PhaseIn::Between(b) => BlockElementsIter::Between(b),
            PhaseIn::DenseNodes => BlockElementsIter::DenseNodes(nodes_in(slot)),
            PhaseIn::FullDenseNodes => BlockElementsIter::FullDenseNodes(full_nodes_in(slot)),
            PhaseIn::Messages(m) => BlockElementsIter::Messages(m),
        }
    }

    // Numbers that the state's phase has not stay as they were.
    fn put_state(slot: &mut [u8], state: BlockElementsIter) {
        match state {
            BlockElementsIter::Ended => put_numbers(slot, &[0]),
            BlockElementsIter::Between(b) => put_numbers(slot, &[1, b.full as u64, b.group as u64]),
            BlockElementsIter::DenseNodes(d) => put_nodes(slot, d),
            BlockElementsIter::FullDenseNodes(f) => put_full(slot, f),
            BlockElementsIter::Messages(m) => put_messages(slot, m),
        }
    }
}
