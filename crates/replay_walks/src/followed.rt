// An answer's text as it is followed: what is written has to be what the text goes on with, else it is an error.
use std::fmt;

// What is left of the text.
#[derive(Drop)]
pub(crate) struct Followed<'a> {
    rest: &'a [u8],
}

impl<'a> Followed<'a> {
    pub(crate) fn new(text: &'a [u8]) -> Followed<'a> {
        Followed { rest: text }
    }

    // How many bytes are left.
    pub(crate) fn len(&self) -> usize {
        self.rest.len()
    }

    // Whether the text was followed to its end.
    pub(crate) fn is_whole(&self) -> bool {
        self.rest.is_empty()
    }
}

impl<'a> fmt::Write for Followed<'a> {
    fn write_str(&mut self, s: &str) -> fmt::Result {
        match self.rest.strip_prefix(s.as_bytes()) {
            Some(rest) => {
                self.rest = rest;
                Ok(())
            }
            None => Err(fmt::Error),
        }
    }
}
