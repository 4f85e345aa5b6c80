// The members of a relation, called through C over the record of a scanned block.
ghost use Rattle.std.specs.Prelude.{◌≡◌};
ghost use Rattle.elements.specs.declared.members.RelMember.{RelMember};
ghost use Rattle.elements.specs.declared.members.RelMemberIter.{RelMemberIter};
ghost use Rattle.elements.specs.Members.{members_from};
ghost use Rattle.member_calls.specs.Members.{member_words, members_at, members_over, member_item, item-size};

use answers::codes::Stop;
use answers::words::{put_at, put_numbers};
use calls::items::Items;
use calls::run::Run;
use calls::slot::{Slot, column_in, sum_in};
use columns::sums::Sum;
use columns::zip::MemberColumns;
use elements::members::{MemberId, RelMember, RelMemberIter};
use fields::step::Step;
use lookup::by_number::is_inside;
use numbers::little::Little;
use numbers::signed::Signed;
use protobuf::column::{Column, short_value, wide_value};
use wire::record::WireBlock;

// The state in a slot's first 64 bytes.
pub struct MemberState;

impl Slot for MemberState {
    type State = RelMemberIter;

    const WIDTH: usize = 64;

    ghost WIDTH = { 64 };

    ghost words = { member_words };

    ghost state_at = { members_at };

    ghost over = { RelMemberIter.Ended };

    ghost is_over = { members_over };

    fn over() -> RelMemberIter {
        RelMemberIter::Ended
    }

    fn is_over(state: RelMemberIter) -> bool {
        match state {
            RelMemberIter::Ended => true,
            RelMemberIter::Members(_) => false,
        }
    }

    // Of an ended one the other numbers are not looked at.
    fn state_in(slot: &[u8]) -> RelMemberIter {
        match u64::read(slot, 0) {
            0 => RelMemberIter::Ended,
            1 => RelMemberIter::Members(MemberColumns {
                roles: column_in(slot, 8, 16),
                memids: sum_in(slot, 24, 32, 40),
                types: column_in(slot, 48, 56),
            }),
            _ => RelMemberIter::Members(MemberColumns {
                roles: Column { at: 1, end: 0 },
                memids: Sum {
                    column: Column { at: 1, end: 0 },
                    sum: 0,
                },
                types: Column { at: 1, end: 0 },
            }),
        }
    }

    fn put_state(slot: &mut [u8], state: RelMemberIter) {
        match state {
            RelMemberIter::Ended => put_numbers(slot, &[0, 0, 0, 0, 0, 0, 0, 0]),
            RelMemberIter::Members(c) => {
                put_numbers(
                    slot,
                    &[
                        1,
                        c.roles.at as u64,
                        c.roles.end as u64,
                        c.memids.column.at as u64,
                        c.memids.column.end as u64,
                        c.memids.sum.bits(),
                        c.types.at as u64,
                        c.types.end as u64,
                    ],
                );
            }
        }
    }
}

// Members, four numbers each, over the record of a block.
pub struct Members;

impl Items<MemberState> for Members {
    type Opened = WireBlock;

    const SIZE: usize = 32;

    ghost SIZE = { 32 };

    ghost Item = { RelMember };

    ghost Put = { RelMember };

    ghost shows = { λ s member. member };

    ghost words = { member_item };

    ghost from = { members_from };

    fn put_one(
        buffer: &[u8],
        block: WireBlock,
        state: RelMemberIter,
        out: &mut [u8],
        at: usize,
    ) -> Result<RelMemberIter, Stop> {
        let Step { said, next } = state.step(buffer, block);
        let Some(member) = said? else {
            return Err(Stop::Ended);
        };
        put_at(out, at, &member_numbers(member));
        Ok(next)
    }

    // A role below 2^31 and the type of a node, a way or a relation are put as they stand. The record is tested once for all members; that a
    // column is inside, each value's word tells. The readers' places and the sum are numbers of the loop: a state would pass through memory
    // for each member.
    fn put_short(
        buffer: &[u8],
        block: WireBlock,
        start: RelMemberIter,
        out: &mut [u8],
        first: usize,
        most: usize,
    ) -> Run<RelMemberIter> {
        let RelMemberIter::Members(c) = start else {
            return Run {
                count: first,
                next: start,
            };
        };
        if !is_inside(buffer, block) {
            return Run {
                count: first,
                next: start,
            };
        }
        let ids = c.memids;
        let mut roles = c.roles;
        let mut memids = ids.column;
        let mut types = c.types;
        let mut sum = ids.sum;
        let mut count = first;
        while count < most {
            let role = short_value(buffer, roles.at, roles.end);
            let id = wide_value(buffer, memids.at, memids.end);
            let kind = short_value(buffer, types.at, types.end);
            if role == 0 {
                break;
            }
            if id == 0 {
                break;
            }
            if kind == 0 {
                break;
            }
            if 0x7FFF_FFFF < role / 16 {
                break;
            }
            if 2 < kind / 16 {
                break;
            }
            sum = sum.plus(i64::of_zigzag(id / 16));
            put_at(
                out,
                32 * count,
                &[role / 16, kind / 16, kind / 16, sum.bits()],
            );
            roles.at += (role % 16) as usize;
            memids.at += (id % 16) as usize;
            types.at += (kind % 16) as usize;
            count += 1;
        }
        Run {
            count,
            next: RelMemberIter::Members(MemberColumns {
                roles,
                memids: Sum {
                    column: memids,
                    sum,
                },
                types,
            }),
        }
    }

    ghost small = { item-size };
}

// A member's four numbers: its role, the case of its id, its type and its id.
fn member_numbers(member: RelMember) -> [u64; 4]
    ensures { result ≡ member_item member }
{
    let role = member.role.bits();
    let id = member.id;
    match id {
        MemberId::Node(i) => [role, 0, 0, i.bits()],
        MemberId::Way(i) => [role, 1, 1, i.bits()],
        MemberId::Relation(i) => [role, 2, 2, i.bits()],
        MemberId::Unknown { kind, id } => [role, 3, kind.bits(), id.bits()],
    }
}
