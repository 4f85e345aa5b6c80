// Tags, which say what the next field is; and the wire types.
ghost use Rattle.std.specs.Prelude.{◌≡◌};
ghost use Rattle.protobuf.specs.Tag.{tag_at};

use crate::refusal::Refusal;
use crate::varint::read_varint;

// The wire types stay numbers: who reads a payload may be given any number, and an enum would take fewer.
pub const VARINT: u32 = 0;

pub const I64: u32 = 1;

pub const LEN: u32 = 2;

pub const SGROUP: u32 = 3;

pub const EGROUP: u32 = 4;

pub const I32: u32 = 5;

// The field number and the wire type.
#[derive(Clone, Copy, Debug, PartialEq, Eq)]
pub struct Tag {
    pub field: u32,
    pub wire: u32,
}

// The tag at `at` with the place behind it, or none where the message is done: 2 and 3 as of its varint, 4 for field 0 and for a value above
// 4,294,967,295, 14 where `at` is behind the end.
pub fn read_tag(s: &[u8], at: usize) -> Result<Option<(Tag, usize)>, Refusal>
    ensures { result ≡ tag_at s.now at }
{
    if at == s.len() {
        return Ok(None);
    }
    // `let .. else`, since a varint's refusal is handed up at once by each reader of bytes (docs/DECISIONS.md).
    let r = read_varint(s, at);
    let Ok((value, next)) = r else {
        return Err(r.unwrap_err());
    };
    if value < 8 {
        return Err(Refusal::TagValue);
    }
    if 4294967295 < value {
        return Err(Refusal::TagValue);
    }
    let tag = Tag {
        field: (value / 8) as u32,
        wire: (value % 8) as u32,
    };
    Ok(Some((tag, next)))
}
