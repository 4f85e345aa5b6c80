// How the lines came out, by the kind of walk.
use crate::line::Kind;
use std::io::Write;
use std::{fmt, io};

// How a line came out.
#[derive(Clone, Copy, Debug, PartialEq, Eq)]
pub(crate) enum Outcome {
    // The text agreed, and the walk came to its end.
    Ended,
    // The text agreed, and a refusal ended the walk.
    Stopped,
    Different,
    NotRead,
}

// The lines of a kind by how they came out.
#[derive(Clone, Copy)]
struct Counts {
    ended: u64,
    stopped: u64,
    different: u64,
    unread: u64,
}

// The lines of each kind, and how many lines ask for no walk.
#[derive(Clone, Copy)]
pub(crate) struct Tally {
    plain: Counts,
    full: Counts,
    other: u64,
}

// One more. A list has fewer lines than 2^64.
fn more(n: u64) -> u64 {
    n.saturating_add(1)
}

impl Counts {
    const NONE: Counts = Counts {
        ended: 0,
        stopped: 0,
        different: 0,
        unread: 0,
    };

    // A line more.
    fn count(&mut self, outcome: Outcome) {
        match outcome {
            Outcome::Ended => self.ended = more(self.ended),
            Outcome::Stopped => self.stopped = more(self.stopped),
            Outcome::Different => self.different = more(self.different),
            Outcome::NotRead => self.unread = more(self.unread),
        }
    }

    fn plus(self, other: Counts) -> Counts {
        Counts {
            ended: self.ended.saturating_add(other.ended),
            stopped: self.stopped.saturating_add(other.stopped),
            different: self.different.saturating_add(other.different),
            unread: self.unread.saturating_add(other.unread),
        }
    }
}

// How many walks were made over the blocks of a kind, how many of them gave the answer's text, and how many of those ended with a refusal.
impl fmt::Display for Counts {
    fn fmt<W: fmt::Write>(&self, f: &mut fmt::Formatter<W>) -> fmt::Result {
        let agreed = self.ended.saturating_add(self.stopped);
        let asked = agreed.saturating_add(self.different);
        write!(
            f,
            "{asked} asked, {agreed} agreed, {} refused",
            self.stopped
        )
    }
}

impl Tally {
    // Before the first line.
    pub(crate) const NOTHING: Tally = Tally {
        plain: Counts::NONE,
        full: Counts::NONE,
        other: 0,
    };

    // A line of a kind more.
    pub(crate) fn count(&mut self, kind: Kind, outcome: Outcome) {
        match kind {
            Kind::Plain => self.plain.count(outcome),
            Kind::Full => self.full.count(outcome),
        }
    }

    // A line that asks for no walk.
    pub(crate) fn count_other(&mut self) {
        self.other = more(self.other);
    }

    // A line for each kind of walk, and the totals.
    pub(crate) fn print<W: Write>(&self, report: &mut W) -> io::Result<()> {
        let all = self.plain.plus(self.full);
        writeln!(report, "plain: {}", self.plain)?;
        writeln!(report, "full: {}", self.full)?;
        writeln!(report, "all: {all}")?;
        writeln!(
            report,
            "{} different, {} not read, {} of other kinds not asked",
            all.different, all.unread, self.other
        )
    }
}
