// An answer: its text, whose words each have a space before them, and the refusal that it is or ends with.
use arrayvec::ArrayString;
use protobuf::refusal::Refusal;
use replaying::words::Code;
use std::fmt;
use std::fmt::{Display, Write};

// The most bytes of an answer's text.
pub(crate) const ROOM: usize = 2048;

// The text as far as there is room for it. What does not fit is dropped and is no error, so the steps of a list go on behind it.
#[derive(Drop)]
pub(crate) struct Text(ArrayString<ROOM>);

impl Text {
    pub(crate) fn new() -> Text {
        Text(ArrayString::new())
    }

    pub(crate) fn clear(&mut self) {
        self.0.clear();
    }

    pub(crate) fn as_str(&self) -> &str {
        self.0.as_str()
    }
}

// All that is written is ASCII, so it may be cut behind any byte. A short word that fits is written by itself, since its length is then known
// where it is written.
impl Write for Text {
    fn write_str(&mut self, s: &str) -> fmt::Result {
        match s.get(..self.0.remaining_capacity()) {
            Some(fits) => self.0.write_str(fits),
            None => self.0.write_str(s),
        }
    }
}

// The refusal that an answer is or ends with.
pub(crate) type Said = Result<Option<Refusal>, fmt::Error>;

// Words that are no refusal.
pub(crate) fn say<T: Display + Drop>(text: &mut Text, words: T) -> Said {
    write!(text, " {words}")?;
    Ok(None)
}

// What was found, behind a 0.
pub(crate) fn accept<T: Display + Drop>(text: &mut Text, words: T) -> Said {
    write!(text, " 0 {words}")?;
    Ok(None)
}

// A refusal's number, as the whole answer or behind the steps that it ended.
pub(crate) fn refuse(text: &mut Text, refusal: Refusal) -> Said {
    write!(text, " {}", Code(refusal))?;
    Ok(Some(refusal))
}

// A refusal ended the steps of a list.
pub(crate) fn stop_steps(text: &mut Text, refusal: Refusal) -> Said {
    text.write_str(" !")?;
    refuse(text, refusal)
}
