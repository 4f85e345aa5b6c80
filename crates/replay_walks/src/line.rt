// A line of the list taken apart: the kind of walk, the digits of the block, and the answer's text.
//
//     plain p x12071a054203020201 = w 0 0 . 1 2 1 . .
use replaying::list::halves;

// The kinds of walk that are asked for: without metadata, or with it.
#[derive(Clone, Copy, Debug, PartialEq, Eq)]
pub(crate) enum Kind {
    Plain,
    Full,
}

// The kind of walk that a line asks for, and what stands behind its name: none where the line begins with no kind's.
pub(crate) fn kind_of(line: &[u8]) -> Option<(Kind, &[u8])> {
    if let Some(rest) = line.strip_prefix(b"plain") {
        return Some((Kind::Plain, rest));
    }
    Some((Kind::Full, line.strip_prefix(b"full")?))
}

// What a line asks: the walk of the block that the digits spell, and the text that it is to give.
#[derive(Clone, Copy)]
pub(crate) struct Question<'a> {
    pub(crate) digits: &'a [u8],
    pub(crate) text: &'a [u8],
}

// The question behind the name of its kind. It was answered by the published Rust (`p`), or by the simple reader alone (`r`).
pub(crate) fn question_of(rest: &[u8]) -> Option<Question<'_>> {
    let rest = rest
        .strip_prefix(b" p")
        .or_else(|| rest.strip_prefix(b" r"))?;
    let (digits, text) = halves(rest.strip_prefix(b" x")?)?;
    Some(Question { digits, text })
}
