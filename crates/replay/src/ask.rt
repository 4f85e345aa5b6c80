// A question asked: its bytes stand in an array that is filled up around them.
use crate::answer::{Said, Text};
use crate::blocks::{
    NO_RECORD, ask_check, ask_classify, ask_densepass, ask_get, ask_group, ask_messages, ask_scan,
};
use crate::kind::Kind;
use crate::leaf::{ask_column, ask_field, ask_varint};
use crate::messages::{Message, ask_view};
use crate::question::Question;
use protobuf::refusal::Refusal;
use replaying::list::{BYTES, decode, is_lower};
use views::dense_info::WireDenseInfo;
use views::dense_nodes::WireDenseNodes;
use views::info::WireInfo;
use views::node::WireNode;
use views::relation::WireRelation;
use views::way::WireWay;
use wire::record::WireBlock;

// How far ahead of the bytes the array begins where a question is asked again.
pub(crate) const AHEAD: usize = 5;

// What was answered to the last question that was asked: its text, and the refusal that it is or ends with.
#[derive(Drop)]
pub(crate) struct Answer {
    pub(crate) text: Text,
    pub(crate) refusal: Option<Refusal>,
}

// The `len` bytes from `start`.
fn bytes_at(buf: &[u8], start: usize, len: usize) -> &[u8] {
    buf.get(start..start.saturating_add(len)).unwrap_or(&[])
}

// The same as a message, with the bytes before it, and as many behind it.
fn message_at(buf: &[u8], start: usize, len: usize) -> Message<'_> {
    let end = start.saturating_add(len).saturating_add(start);
    Message {
        s: buf.get(..end).unwrap_or(&[]),
        start,
        len,
    }
}

// A question whose `len` bytes stand from `start` in an array.
fn ask_at(text: &mut Text, question: &Question, buf: &mut [u8], start: usize, len: usize) -> Said {
    let [a, b, c, d, e, f] = question.numbers;
    let bytes = bytes_at(buf, start, len);
    let message = message_at(buf, start, len);
    match question.kind {
        Kind::Varint => ask_varint(text, bytes, a),
        Kind::Field => ask_field(text, bytes, a),
        Kind::Column => ask_column(text, bytes),
        Kind::Scan => ask_scan(text, buf, a, b),
        Kind::Get => {
            let table = WireBlock {
                stringtable: a,
                strings: b,
                ..NO_RECORD
            };
            ask_get(text, bytes, table, c)
        }
        Kind::Group => {
            let tables = WireBlock {
                block: a,
                stringtable: b,
                strings: c,
                grouptable: d,
                groups: e,
                ..NO_RECORD
            };
            ask_group(text, bytes, tables, f)
        }
        Kind::Classify => ask_classify(text, bytes),
        Kind::Node => ask_view::<WireNode>(text, message),
        Kind::Way => ask_view::<WireWay>(text, message),
        Kind::Relation => ask_view::<WireRelation>(text, message),
        Kind::Dense => ask_view::<WireDenseNodes>(text, message),
        Kind::DenseInfo => ask_view::<WireDenseInfo>(text, message),
        Kind::Info => ask_view::<WireInfo>(text, message),
        Kind::DensePass => ask_densepass(text, message),
        Kind::Messages => ask_messages(text, message, a),
        Kind::Check => ask_check(text, buf, len),
    }
}

// Puts a question's bytes from `start` on, and says how many there are: none where they cannot be read.
fn put_bytes(buf: &mut [u8], start: usize, digits: &[u8]) -> Option<usize> {
    let room = buf.get_mut(start..start.saturating_add(BYTES))?;
    if is_lower(digits) {
        decode(digits, room)
    } else {
        None
    }
}

// A question whose bytes stand at `ahead`, a block's at the start. No text where they cannot be read. It is asked on the first `BYTES` of the
// array: of bytes that pass those, which the array has room for, it is asked on none.
fn ask(text: &mut Text, question: &Question, ahead: usize) -> Said {
    let mut buf = [0xa5u8; BYTES + AHEAD];
    let start = if question.kind.is_on_block() {
        0
    } else {
        ahead
    };
    let len = put_bytes(&mut buf, start, question.digits);
    match (len, buf.get_mut(..BYTES)) {
        (Some(len), Some(first)) => ask_at(text, question, first, start, len),
        _ => Ok(None),
    }
}

impl Answer {
    // Before the first question.
    pub(crate) fn new() -> Answer {
        Answer {
            text: Text::new(),
            refusal: None,
        }
    }

    // Asks a question whose bytes stand at `ahead`.
    pub(crate) fn ask(&mut self, question: &Question, ahead: usize) {
        self.text.clear();
        // A text takes all words, so there is always an answer.
        self.refusal = ask(&mut self.text, question, ahead).unwrap_or(None);
    }

    // Whether it has a text.
    pub(crate) fn is(&self, text: &[u8]) -> bool {
        self.text.as_str().as_bytes() == text
    }
}
