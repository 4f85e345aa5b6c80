// A line of the list taken apart: the kind of question, its bytes, its numbers, and the answer's text.
use crate::kind::{Kind, NoKind};
use replaying::list::first_word;

// The most numbers of a question.
const NUMBERS: usize = 6;

// What is asked. Numbers that its kind does not have are 0.
#[derive(Clone, Copy)]
pub(crate) struct Question<'a> {
    pub(crate) kind: Kind,
    pub(crate) digits: &'a [u8],
    pub(crate) numbers: [usize; NUMBERS],
}

// The number that a word of digits says; the largest number where that passes 64 bits.
fn number_of(word: &[u8]) -> Option<usize> {
    if word.is_empty() {
        return None;
    }
    let mut number: usize = 0;
    for byte in word {
        let digit = char::from(*byte).to_digit(10)?;
        number = number.saturating_mul(10).saturating_add(digit as usize);
    }
    Some(number)
}

// The number that some bytes begin with, and what stands behind the byte that ends it. Any byte but a digit does.
fn number_in(bytes: &[u8]) -> Option<(usize, &[u8])> {
    let end = bytes
        .iter()
        .position(|byte| !byte.is_ascii_digit())
        .unwrap_or(bytes.len());
    let (word, behind) = bytes.split_at_checked(end)?;
    Some((number_of(word)?, behind.get(1..).unwrap_or(&[])))
}

// What stands behind a line's first word and the space that ends it.
fn behind_word(line: &[u8]) -> Option<&[u8]> {
    line.get(first_word(line).len()..)?.strip_prefix(b" ")
}

// The kind of the question that a line asks.
pub(crate) fn kind_of(line: &[u8]) -> Result<Kind, NoKind> {
    Kind::try_from(first_word(line))
}

// A question by its words: its kind, by whom it was answered, which may be any word, its bytes, and the numbers of its kind. Says what
// stands behind those.
pub(crate) fn question_of(kind: Kind, line: &[u8]) -> Option<(Question<'_>, &[u8])> {
    let words = behind_word(behind_word(line)?)?;
    let digits = first_word(words).strip_prefix(b"x")?;
    let mut rest = behind_word(words)?;
    let mut numbers = [0; NUMBERS];
    for number in numbers.iter_mut().take(kind.numbers()) {
        let (value, behind) = number_in(rest)?;
        *number = value;
        rest = behind;
    }
    let question = Question {
        kind,
        digits,
        numbers,
    };
    Some((question, rest))
}

// The question of a line, and the text of its answer.
pub(crate) fn read_line(kind: Kind, line: &[u8]) -> Option<(Question<'_>, &[u8])> {
    let (question, rest) = question_of(kind, line)?;
    Some((question, rest.strip_prefix(b"=")?))
}
