// The moves of a walk that hand out nothing: into a group, and from one kind of its messages to the next.
ghost use Rattle.std.specs.Prelude.{◌≡◌, Bool, true, ◌+◌, ◌-◌, ◌^◌, ◌<◌};
ghost use Rattle.walk.specs.State.{group_inside, dense_inside};
ghost use Rattle.walk.specs.Walk.{dense_start, infos_start, groups_from};
ghost use Rattle.walk.specs.Moves.{left_from, before_kind, behind_kind, among_full, moves_to, at_dense, at_infos, entry_ahead, entry_stands, Quietly};

use crate::state::{Between, BlockElementsIter, DenseNodeIter, FullDenseNodeIter, Range};
use crate::turns::{Move, move_out, move_refused, move_to};
use columns::info_rows::InfoColumns;
use columns::reader::start_column;
use columns::sums::Sum;
use columns::zip::RowColumns;
use fields::part::Part;
use groups::group::dense;
use kinds::state::{DenseColumns, GroupRangeAt, Loose, Messages};
use lookup::by_number::group;
use protobuf::refusal::Refusal;
use views::dense_info::WireDenseInfo;
use views::dense_nodes::WireDenseNodes;
use views::view::View;
use wire::record::WireBlock;

// A group, with its dense message, present or not.
#[derive(Clone, Copy)]
struct Entry {
    of: GroupRangeAt,
    message: Part,
}

// Before the messages of a kind.
pub(crate) fn messages_of(full: bool, of: GroupRangeAt, kind: Loose) -> BlockElementsIter
    ensures { result ≡ before_kind full of kind }
{
    BlockElementsIter::Messages(Messages {
        full,
        of,
        kind,
        at: 0,
    })
}

// To the messages of a kind.
pub(crate) fn begin_kind(full: bool, of: GroupRangeAt, kind: Loose) -> Move
    ensures { result ≡ moves_to (before_kind full of kind) }
{
    move_to(messages_of(full, of, kind))
}

// Behind the last message of a kind.
pub(crate) fn behind_kind(full: bool, of: GroupRangeAt, kind: Loose) -> BlockElementsIter
    requires { of.group + 1 < 2 ^ 64 }
    ensures { result ≡ behind_kind full of kind }
{
    match kind {
        Loose::Nodes => return messages_of(full, of, Loose::Ways),
        Loose::Ways => return messages_of(full, of, Loose::Relations),
        Loose::Relations => {
            return BlockElementsIter::Between(Between {
                full,
                group: of.group + 1,
            });
        }
    }
}

// Before the first node of a dense message.
fn start_nodes(of: GroupRangeAt, message: Part, v: WireDenseNodes) -> DenseNodeIter
    ensures { result ≡ dense_start of message v }
{
    DenseNodeIter {
        of,
        message: Range {
            start: message.start,
            len: message.len,
        },
        columns: DenseColumns {
            rows: RowColumns {
                ids: Sum::start(v.id),
                lats: Sum::start(v.lat),
                lons: Sum::start(v.lon),
            },
            keyvals: start_column(v.keyvals),
        },
    }
}

// The columns of a DenseInfo before their first row.
fn start_infos(v: WireDenseInfo) -> InfoColumns
    ensures { result ≡ infos_start v }
{
    InfoColumns {
        version: start_column(v.version),
        timestamp: Sum::start(v.timestamp),
        changeset: Sum::start(v.changeset),
        uid: Sum::start(v.uid),
        user: Sum::start(v.user),
        visible: start_column(v.visible),
    }
}

// To dense nodes with metadata, before the first of them.
fn begin_infos(nodes: DenseNodeIter, v: WireDenseInfo) -> Move
    ensures { result ≡ moves_to (among_full (record { nodes = nodes; infos = infos_start v })) }
{
    move_to(BlockElementsIter::FullDenseNodes(FullDenseNodeIter {
        nodes,
        infos: start_infos(v),
    }))
}

// To the dense nodes of a group with metadata.
fn enter_infos(buffer: &[u8], block: WireBlock, nodes: DenseNodeIter, info: Part) -> Move
    requires { dense_inside buffer.now block nodes ≡ true }
    ensures { Quietly buffer.now block (left_from block nodes.of.group) (at_infos buffer.now block nodes info) result }
{
    let q = WireDenseInfo::parse(buffer, info.start, info.len);
    match q {
        Err(n) => return move_refused(n),
        Ok(v) => return begin_infos(nodes, v),
    }
}

// To the dense nodes of a group.
fn enter_dense(buffer: &[u8], block: WireBlock, full: bool, of: GroupRangeAt, message: Part) -> Move
    requires { group_inside buffer.now block of ≡ true }
    ensures { Quietly buffer.now block (left_from block of.group) (at_dense full buffer.now block of message) result }
{
    let p = WireDenseNodes::parse(buffer, message.start, message.len);
    match p {
        Err(n) => return move_refused(n),
        Ok(v) => {
            let nodes = start_nodes(of, message, v);
            if full {
                return enter_infos(buffer, block, nodes, v.info);
            }
            return move_to(BlockElementsIter::DenseNodes(nodes));
        }
    }
}

// A group by its number, none behind the last: its entry in the table, then the dense pass over all its fields.
fn find_group(buffer: &[u8], block: WireBlock, number: usize) -> Result<Option<Entry>, Refusal>
    ensures says { (full : Bool) → entry_ahead full buffer.now block result ≡ groups_from full buffer.now block (block.groups - number) number }
    ensures stands { entry_stands buffer.now block number result ≡ true }
{
    if block.groups <= number {
        return Ok(None);
    }
    let range = group(buffer, block, number)?;
    let message = dense(buffer, range.start, range.len)?;
    let of = GroupRangeAt {
        group: number,
        start: range.start,
        len: range.len,
    };
    Ok(Some(Entry { of, message }))
}

// Into a group: to its dense nodes, or to its nodes where it has no dense message.
pub(crate) fn enter(buffer: &[u8], block: WireBlock, at: Between) -> Move
    ensures { Quietly buffer.now block (left_from block at.group) (groups_from at.full buffer.now block (block.groups - at.group) at.group) result }
{
    let e = find_group(buffer, block, at.group);
    match e {
        Ok(None) => return move_out(),
        Err(n) => return move_refused(n),
        Ok(Some(found)) => {
            if found.message.present {
                return enter_dense(buffer, block, at.full, found.of, found.message);
            }
            return begin_kind(at.full, found.of, Loose::Nodes);
        }
    }
}
