// The members of two relations in step: the texts of their roles, and their ids by the type.
ghost use Rattle.std.specs.Prelude.{◌≡◌};
ghost use Rattle.elements.specs.declared.members.RelMember.{RelMember as Shows};
ghost use Rattle.elements.specs.Members.{members_from, role_at};
ghost use Rattle.walk.specs.Shows.{text_of};
ghost use Rattle.walk.specs.Same.{same_member};
ghost use Rattle.same.specs.Members.{same_roles};

use crate::streams::Stream;
use crate::texts::same_text;
use elements::members::{RelMember, RelMemberIter, role_text};
use fields::step::Step;
use protobuf::refusal::Refusal;
use wire::record::WireBlock;

// The texts of two roles: the first's number, then the second's. None is another thing than an empty text.
fn same_role(
    first: &[u8],
    a: WireBlock,
    x: i32,
    second: &[u8],
    b: WireBlock,
    y: i32,
) -> Result<bool, Refusal>
    ensures { result ≡ same_roles (text_of first.now (role_at first.now a x)) (text_of second.now (role_at second.now b y)) }
{
    let p = role_text(first, a, x)?;
    let q = role_text(second, b, y)?;
    match (p, q) {
        (None, None) => Ok(true),
        (Some(t), Some(u)) => Ok(same_text(first, t, second, u)),
        _ => Ok(false),
    }
}

// Two members: their roles, and where those are the same their ids.
fn same_member(
    first: &[u8],
    a: WireBlock,
    x: RelMember,
    second: &[u8],
    b: WireBlock,
    y: RelMember,
) -> Result<bool, Refusal>
    ensures { result ≡ same_member first.now a second.now b x y }
{
    let roles = same_role(first, a, x.role, second, b, y.role)?;
    if !roles {
        return Ok(false);
    }
    Ok(x.id == y.id)
}

// Members are compared by what their numbers and types show.
impl Stream for RelMemberIter {
    type Item = RelMember;

    ghost Shown = { Shows };

    ghost shown = { λ s m. m };

    ghost from = { members_from };

    ghost same = { same_member };

    ghost stands = { λ s r m. Unit {0} };

    fn step(self, buffer: &[u8], block: WireBlock) -> Step<RelMember, RelMemberIter> {
        self.step(buffer, block)
    }

    fn same(
        first: &[u8],
        a: WireBlock,
        x: RelMember,
        second: &[u8],
        b: WireBlock,
        y: RelMember,
    ) -> Result<bool, Refusal> {
        same_member(first, a, x, second, b, y)
    }
}
