// What is told item by item: a walk's elements, and the lists of an element, which are its tags, a way's references, a relation's members.
use crate::followed::Followed;
use elements::members::{MemberId, RelMember, RelMemberIter, role_text};
use elements::references::WayRefIter;
use elements::tags::{RawTag, Tag, TagIter};
use fields::part::{NONE, Part, bytes_of};
use fields::step::Step;
use lookup::by_number::get;
use protobuf::refusal::Refusal;
use replaying::words::{Code, Hex};
use std::fmt;
use std::fmt::Write;
use wire::record::WireBlock;

// The block that is walked, with its tables, and how: with metadata or without, and by which of the calls that give the same. `other` begins
// with `next`, and has tags by `step_raw`. Both are flags, since no value stands beside either and each only picks between two calls.
#[derive(Clone, Copy)]
pub(crate) struct Walked<'a> {
    pub(crate) s: &'a [u8],
    pub(crate) block: WireBlock,
    pub(crate) full: bool,
    pub(crate) other: bool,
}

// An answer's text as it is followed, and the walk that is to give it.
#[derive(Drop)]
pub(crate) struct Answer<'a> {
    pub(crate) text: Followed<'a>,
    pub(crate) of: Walked<'a>,
}

// What is told item by item.
pub(crate) trait List: Copy {
    type Item;

    // The next item, with the state behind it.
    fn advance(self, of: Walked) -> Step<Self::Item, Self>;

    // An item in an answer.
    fn follow(answer: &mut Answer, item: Self::Item) -> fmt::Result;
}

impl<'a> Answer<'a> {
    // A list: its items, and then a `.`, or the refusal that it ended with. Says that, with the state behind the end. No list has more items
    // than its text has bytes, so one that goes on longer has another text.
    pub(crate) fn list<L: List>(&mut self, list: L) -> Result<(Option<Refusal>, L), fmt::Error> {
        let mut place = list;
        for _ in 0..self.text.len() {
            let step = place.advance(self.of);
            place = step.next;
            match step.said {
                Ok(Some(item)) => L::follow(self, item)?,
                Ok(None) => {
                    self.text.write_str(" .")?;
                    return Ok((None, place));
                }
                Err(refusal) => {
                    write!(self.text, " ! {}", Code(refusal))?;
                    return Ok((Some(refusal), place));
                }
            }
        }
        Err(fmt::Error)
    }

    // A list whose end says no more than its text.
    pub(crate) fn whole<L: List>(&mut self, list: L) -> fmt::Result {
        self.list(list)?;
        Ok(())
    }

    // A tag by its two texts.
    fn tag(&mut self, tag: Tag) -> fmt::Result {
        let key = Hex(bytes_of(self.of.s, tag.key));
        let value = Hex(bytes_of(self.of.s, tag.value));
        write!(self.text, " {key} {value}")
    }

    // A role's text.
    fn role(&mut self, role: i32) -> fmt::Result {
        match role_text(self.of.s, self.of.block, role) {
            Ok(Some(part)) => write!(self.text, " {}", Hex(bytes_of(self.of.s, part))),
            Ok(None) => self.text.write_str(" ~"),
            Err(refusal) => write!(self.text, " ! {}", Code(refusal)),
        }
    }

    // A member's type and id.
    fn member_id(&mut self, id: MemberId) -> fmt::Result {
        match id {
            MemberId::Node(id) => write!(self.text, " 0 {id}"),
            MemberId::Way(id) => write!(self.text, " 1 {id}"),
            MemberId::Relation(id) => write!(self.text, " 2 {id}"),
            MemberId::Unknown { kind, id } => write!(self.text, " {kind} {id}"),
        }
    }
}

// The tags that are shown.
impl List for TagIter {
    type Item = Tag;

    fn advance(self, of: Walked) -> Step<Tag, TagIter> {
        self.step(of.s, of.block)
    }

    fn follow(answer: &mut Answer, tag: Tag) -> fmt::Result {
        answer.tag(tag)
    }
}

// The same tags by their numbers, up to the first that is not shown.
#[derive(Clone, Copy)]
pub(crate) struct RawTags(pub(crate) TagIter);

// The text of a tag's number, and no part where it has none.
fn text_of(of: Walked, number: u64) -> Part {
    match get(of.s, of.block, number as usize) {
        Ok(Some(part)) => part,
        _ => NONE,
    }
}

// A tag by its numbers, whose texts are looked up: none where one of them has no text.
fn with_texts(of: Walked, raw: RawTag) -> Option<Tag> {
    let key = text_of(of, raw.key);
    let value = text_of(of, raw.value);
    if key.present && value.present {
        Some(Tag { raw, key, value })
    } else {
        None
    }
}

impl List for RawTags {
    type Item = Tag;

    fn advance(self, of: Walked) -> Step<Tag, RawTags> {
        let Step { said, next } = self.0.step_raw(of.s);
        let said = match said {
            Ok(Some(raw)) => Ok(with_texts(of, raw)),
            Ok(None) => Ok(None),
            Err(refusal) => Err(refusal),
        };
        Step {
            said,
            next: RawTags(next),
        }
    }

    fn follow(answer: &mut Answer, tag: Tag) -> fmt::Result {
        answer.tag(tag)
    }
}

// The references of a way.
impl List for WayRefIter {
    type Item = i64;

    fn advance(self, of: Walked) -> Step<i64, WayRefIter> {
        self.step(of.s)
    }

    fn follow(answer: &mut Answer, id: i64) -> fmt::Result {
        write!(answer.text, " {id}")
    }
}

// The members of a relation: the number of the role, the role's text, the member's type and its id.
impl List for RelMemberIter {
    type Item = RelMember;

    fn advance(self, of: Walked) -> Step<RelMember, RelMemberIter> {
        self.step(of.s, of.block)
    }

    fn follow(answer: &mut Answer, member: RelMember) -> fmt::Result {
        let id = member.id;
        write!(answer.text, " {}", member.role)?;
        answer.role(member.role)?;
        answer.member_id(id)
    }
}
