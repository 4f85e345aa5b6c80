// The questions on an element's message at a place in the bytes: Node, Way, Relation, DenseNodes, DenseInfo and Info.
use crate::answer::{Said, Text, refuse};
use fields::part::Part;
use replaying::words::{InfoWords, PartOf};
use std::fmt;
use std::fmt::Write;
use views::dense_info::WireDenseInfo;
use views::dense_nodes::WireDenseNodes;
use views::info::WireInfo;
use views::node::WireNode;
use views::relation::WireRelation;
use views::view::View;
use views::way::WireWay;

// A message of `len` bytes from `start`, with the bytes around it.
#[derive(Clone, Copy)]
pub(crate) struct Message<'a> {
    pub(crate) s: &'a [u8],
    pub(crate) start: usize,
    pub(crate) len: usize,
}

// A view whose words stand in an answer. Its parts are those of a message at `base`.
pub(crate) trait Words: View {
    fn put(&self, text: &mut Text, base: usize) -> fmt::Result;
}

// The view of a message.
pub(crate) fn ask_view<V: Words + Drop>(text: &mut Text, of: Message) -> Said {
    match V::parse(of.s, of.start, of.len) {
        Err(refusal) => refuse(text, refusal),
        Ok(view) => {
            text.write_str(" 0")?;
            view.put(text, of.start)?;
            Ok(None)
        }
    }
}

fn put_parts(text: &mut Text, base: usize, parts: &[Part]) -> fmt::Result {
    for part in parts {
        write!(text, " {}", PartOf { part: *part, base })?;
    }
    Ok(())
}

impl Words for WireNode {
    fn put(&self, text: &mut Text, base: usize) -> fmt::Result {
        write!(text, " {} {} {}", self.id, self.lat, self.lon)?;
        put_parts(text, base, &[self.keys, self.vals, self.info])
    }
}

impl Words for WireWay {
    fn put(&self, text: &mut Text, base: usize) -> fmt::Result {
        write!(text, " {}", self.id)?;
        put_parts(text, base, &[self.keys, self.vals, self.info])?;
        put_parts(text, base, &[self.refs, self.lat, self.lon, self.pins])
    }
}

impl Words for WireRelation {
    fn put(&self, text: &mut Text, base: usize) -> fmt::Result {
        write!(text, " {}", self.id)?;
        put_parts(text, base, &[self.keys, self.vals, self.info])?;
        put_parts(text, base, &[self.roles, self.memids, self.types])
    }
}

impl Words for WireDenseNodes {
    fn put(&self, text: &mut Text, base: usize) -> fmt::Result {
        put_parts(
            text,
            base,
            &[self.id, self.info, self.lat, self.lon, self.keyvals],
        )
    }
}

impl Words for WireDenseInfo {
    fn put(&self, text: &mut Text, base: usize) -> fmt::Result {
        put_parts(text, base, &[self.version, self.timestamp, self.changeset])?;
        put_parts(text, base, &[self.uid, self.user, self.visible])
    }
}

impl Words for WireInfo {
    fn put(&self, text: &mut Text, _base: usize) -> fmt::Result {
        write!(text, " {}", InfoWords(*self))
    }
}
