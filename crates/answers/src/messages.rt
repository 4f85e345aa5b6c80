// The numbers of each view's answer, in the order that specs/Views gives.
ghost use lib.Dec.{lit<};
ghost use Rattle.answers.specs.Views.{node_words, way_words, relation_words, dense_nodes_words, dense_info_words, info_words};

use crate::layout::Layout;
use numbers::signed::Signed;
use views::dense_info::WireDenseInfo;
use views::dense_nodes::WireDenseNodes;
use views::info::WireInfo;
use views::node::WireNode;
use views::relation::WireRelation;
use views::way::WireWay;

// Numbers, and behind them three for each part: whether it is present, its start and its length.
macro_rules! with_parts {
    ($($number:expr),*; $($part:expr),+) => {
        [
            $($number,)*
            $($part.present as u64, $part.start as u64, $part.len as u64),+
        ]
    };
}

// A node: its id and position, and its parts.
impl Layout<12> for WireNode {
    ghost words = { node_words };

    ghost few = { lit< tt };

    fn numbers(self) -> [u64; 12] {
        with_parts!(self.id.bits(), self.lat.bits(), self.lon.bits(); self.keys, self.vals, self.info)
    }
}

// A way: its id, and its parts.
impl Layout<22> for WireWay {
    ghost words = { way_words };

    ghost few = { lit< tt };

    fn numbers(self) -> [u64; 22] {
        with_parts!(self.id.bits(); self.keys, self.vals, self.info, self.refs, self.lat, self.lon, self.pins)
    }
}

// A relation: its id, and its parts.
impl Layout<19> for WireRelation {
    ghost words = { relation_words };

    ghost few = { lit< tt };

    fn numbers(self) -> [u64; 19] {
        with_parts!(self.id.bits(); self.keys, self.vals, self.info, self.roles, self.memids, self.types)
    }
}

// The dense nodes: their parts.
impl Layout<15> for WireDenseNodes {
    ghost words = { dense_nodes_words };

    ghost few = { lit< tt };

    fn numbers(self) -> [u64; 15] {
        with_parts!(; self.id, self.info, self.lat, self.lon, self.keyvals)
    }
}

// The dense metadata: its parts.
impl Layout<18> for WireDenseInfo {
    ghost words = { dense_info_words };

    ghost few = { lit< tt };

    fn numbers(self) -> [u64; 18] {
        with_parts!(; self.version, self.timestamp, self.changeset, self.uid, self.user, self.visible)
    }
}

// The metadata: two for each number that may be absent, whether it is present and what it is.
impl Layout<12> for WireInfo {
    ghost words = { info_words };

    ghost few = { lit< tt };

    fn numbers(self) -> [u64; 12] {
        [
            self.version.is_some() as u64,
            self.version.unwrap_or(0).bits(),
            self.timestamp.is_some() as u64,
            self.timestamp.unwrap_or(0).bits(),
            self.changeset.is_some() as u64,
            self.changeset.unwrap_or(0).bits(),
            self.uid.is_some() as u64,
            self.uid.unwrap_or(0).bits(),
            self.user.is_some() as u64,
            self.user.unwrap_or(0).bits(),
            self.visible.is_some() as u64,
            self.visible.unwrap_or(false) as u64,
        ]
    }
}
