// An element in an answer's text: its kind's letter, its group's number and its id, a node's position, its metadata in a full walk, and
// then its lists.
use crate::lists::{Answer, RawTags};
use elements::element::{DenseNode, DenseNodeInfo, Element, NodeInfo};
use elements::members::RelMemberIter;
use elements::positions::{nano_lat, nano_lon};
use elements::references::WayRefIter;
use elements::tags::TagIter;
use fields::part::Part;
use replaying::words::{Code, InfoWords, PartOf};
use std::fmt;
use std::fmt::Write;
use views::info::WireInfo;
use views::node::WireNode;
use views::view::View;

// Whether a part is the one that stands for none.
// By its three numbers: a Part has no `==`.
fn is_none(part: Part) -> bool {
    !part.present && part.start == 0 && part.len == 0
}

impl<'a> Answer<'a> {
    // A raw position, and the same in nanodegrees.
    fn position(&mut self, lat: i64, lon: i64) -> fmt::Result {
        let nano = nano_lat(self.of.block, lat);
        write!(
            self.text,
            " {lat} {lon} {nano} {}",
            nano_lon(self.of.block, lon)
        )
    }

    // The metadata of a dense node.
    fn row(&mut self, row: DenseNodeInfo) -> fmt::Result {
        write!(
            self.text,
            " {} {} {}",
            row.version, row.timestamp, row.changeset
        )?;
        write!(
            self.text,
            " {} {} {}",
            row.uid,
            row.user,
            u8::from(row.visible)
        )
    }

    // The same, `~` where there is none. The text of a plain walk has no word for it, so one that reads metadata has another text.
    fn node_info(&mut self, info: NodeInfo) -> fmt::Result {
        match info {
            NodeInfo::Unread => Ok(()),
            NodeInfo::Missing => self.text.write_str(" ~"),
            NodeInfo::Row(row) => self.row(row),
        }
    }

    fn dense_node(&mut self, group: usize, node: DenseNode) -> fmt::Result {
        let info = node.info;
        write!(self.text, " d {group} {}", node.id)?;
        self.position(node.lat, node.lon)?;
        self.node_info(info)
    }

    // The place of an Info, and what its view says.
    fn info(&mut self, info: Part) -> fmt::Result {
        write!(
            self.text,
            " {}",
            PartOf {
                part: info,
                base: 0
            }
        )?;
        match WireInfo::parse(self.of.s, info.start, info.len) {
            Ok(view) => write!(self.text, " 0 {}", InfoWords(view)),
            Err(refusal) => write!(self.text, " {}", Code(refusal)),
        }
    }

    // The metadata of another element than a dense node. A plain walk hands out none, and one that does has another text.
    fn loose_info(&mut self, info: Part) -> fmt::Result {
        if !self.of.full && is_none(info) {
            return Ok(());
        }
        self.info(info)
    }

    fn node(&mut self, group: usize, node: WireNode) -> fmt::Result {
        let info = node.info;
        write!(self.text, " n {group} {}", node.id)?;
        self.position(node.lat, node.lon)?;
        self.loose_info(info)
    }

    // An element without its lists.
    fn own(&mut self, group: usize, element: Element) -> fmt::Result {
        match element {
            Element::DenseNode(node) => self.dense_node(group, node),
            Element::Node(node) => self.node(group, node),
            Element::Way(way) => {
                write!(self.text, " w {group} {}", way.id)?;
                self.loose_info(way.info)
            }
            Element::Relation(relation) => {
                write!(self.text, " r {group} {}", relation.id)?;
                self.loose_info(relation.info)
            }
        }
    }

    // An element's tags, by `step_raw` or by `step`.
    fn tags(&mut self, element: Element) -> fmt::Result {
        let tags = TagIter::new(element);
        if self.of.other {
            self.whole(RawTags(tags))
        } else {
            self.whole(tags)
        }
    }

    // A way's references, or a relation's members.
    fn items(&mut self, element: Element) -> fmt::Result {
        match element {
            Element::DenseNode(_) | Element::Node(_) => Ok(()),
            Element::Way(_) => self.whole(WayRefIter::new(element)),
            Element::Relation(_) => self.whole(RelMemberIter::new(element)),
        }
    }

    // A whole element.
    pub(crate) fn element(&mut self, group: usize, element: Element) -> fmt::Result {
        self.own(group, element)?;
        self.tags(element)?;
        self.items(element)
    }
}
