// Replays the list of walks: each line's block is scanned and walked by the proved functions, and what they hand out is compared, word by
// word, with the answer in the line. Every block is walked twice: by `step` and `next` in turn with tags by their texts, and by `next` and
// `step` in turn with tags by their numbers. Prints the lines that differ, a line for each kind of walk, and the totals.
#![tactic(auto)]

mod element;
mod followed;
mod line;
mod lists;
mod steps;
mod tally;

use followed::Followed;
use line::{Kind, Question, kind_of, question_of};
use lists::Walked;
use protobuf::refusal::Refusal;
use replaying::list::{BYTES, LIST, decode, is_lower, list_buffer, read_full, text_of};
use replaying::tables::block_and_tables;
use replaying::words::Code;
use std::fs::File;
use std::io::Write;
use std::{fmt, io};
use steps::follow_walk;
use tally::{Outcome, Tally};
use wire::record::WireBlock;
use wire::scan::scan;

// Both walks over a scanned block have to give the text: the refusal that ended them.
fn walk_both(
    text: &[u8],
    s: &[u8],
    block: WireBlock,
    full: bool,
) -> Result<Option<Refusal>, fmt::Error> {
    let of = Walked {
        s,
        block,
        full,
        other: false,
    };
    follow_walk(text, of)?;
    follow_walk(text, Walked { other: true, ..of })
}

// The answer where the block could not be scanned.
fn unscanned(text: &[u8], refusal: Refusal) -> Result<Option<Refusal>, fmt::Error> {
    let mut text = Followed::new(text);
    fmt::Write::write_fmt(&mut text, format_args!(" unscanned {}", Code(refusal)))?;
    if text.is_whole() {
        Ok(Some(refusal))
    } else {
        Err(fmt::Error)
    }
}

// The block in the first `len` bytes of a buffer, scanned there. Behind its tables the buffer is cut off.
fn walk_block(
    text: &[u8],
    buffer: &mut [u8],
    len: usize,
    full: bool,
) -> Result<Option<Refusal>, fmt::Error> {
    match scan(buffer, len) {
        Err(refusal) => unscanned(text, refusal),
        Ok(block) => walk_both(text, block_and_tables(buffer, block), block, full),
    }
}

// How a question comes out.
fn ask(kind: Kind, question: Question) -> Outcome {
    if !is_lower(question.digits) {
        return Outcome::NotRead;
    }
    let mut buf = [0xa5u8; BYTES];
    let Some(len) = decode(question.digits, &mut buf) else {
        return Outcome::NotRead;
    };
    match walk_block(question.text, &mut buf, len, kind == Kind::Full) {
        Ok(None) => Outcome::Ended,
        Ok(Some(_)) => Outcome::Stopped,
        Err(_) => Outcome::Different,
    }
}

// What is told of the list, and what was counted so far.
#[derive(Drop)]
struct Replay<W> {
    report: W,
    tally: Tally,
}

impl<W: Write> Replay<W> {
    // A line that differs or cannot be read is printed whole.
    fn show(&mut self, label: &[u8], line: &[u8]) -> io::Result<()> {
        self.report.write_all(label)?;
        self.report.write_all(line)?;
        self.report.write_all(b"\n")
    }

    // One line of the list.
    fn take_line(&mut self, line: &[u8]) -> io::Result<()> {
        if line.first() == Some(&b'#') {
            return Ok(());
        }
        let Some((kind, rest)) = kind_of(line) else {
            self.tally.count_other();
            return Ok(());
        };
        let outcome = match question_of(rest) {
            Some(question) => ask(kind, question),
            None => Outcome::NotRead,
        };
        self.tally.count(kind, outcome);
        match outcome {
            Outcome::Ended | Outcome::Stopped => Ok(()),
            Outcome::Different => self.show(b"different: ", line),
            Outcome::NotRead => self.show(b"not read: ", line),
        }
    }

    // All lines of the list.
    fn replay(&mut self, list: &[u8]) -> io::Result<()> {
        for line in list.split_inclusive(|byte| *byte == b'\n') {
            self.take_line(text_of(line))?;
        }
        self.tally.print(&mut self.report)
    }
}

// Each of the two programs opens its own list and starts its own replay.
fn main(rt: HostRuntime) -> io::Result<()> {
    let mut report = io::writer(&rt);
    let mut buf = list_buffer();
    let mut file = File::open(&rt, "walks.txt")?;
    let n = read_full(&mut file, &mut buf)?;
    if n == LIST {
        writeln!(report, "the list may be longer than what was read")?;
    }
    let mut replay = Replay {
        report,
        tally: Tally::NOTHING,
    };
    replay.replay(&buf[..n])
}
