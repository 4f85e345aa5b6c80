// How many questions of each kind were asked, how many were answered as the list says, and how many of those were refused with 1 to 14.
use crate::kind::Kind;
use protobuf::refusal::Refusal;
use std::{fmt, io};

// The numbers of refusals.
const REFUSALS: usize = 14;

// The counts of a kind, or of all.
#[derive(Clone, Copy)]
pub(crate) struct Counts {
    asked: u64,
    agreed: u64,
    refused: [u64; REFUSALS],
}

// The questions on a string or a group whose number is the count, and those of them that are answered none or 14.
#[derive(Clone, Copy)]
pub(crate) struct AtTheCount {
    pub(crate) asked: u64,
    pub(crate) outside: u64,
}

// The counts of each kind, of all, and of lines that differ, could not be read or ask for another kind.
#[derive(Drop)]
pub(crate) struct Tally {
    kinds: [Counts; Kind::ALL.len()],
    all: Counts,
    pub(crate) get: AtTheCount,
    pub(crate) group: AtTheCount,
    pub(crate) different: u64,
    pub(crate) not_read: u64,
    pub(crate) not_asked: u64,
}

// One more; the largest number stays.
pub(crate) fn more(n: u64) -> u64 {
    n.saturating_add(1)
}

impl Counts {
    const NONE: Counts = Counts {
        asked: 0,
        agreed: 0,
        refused: [0; REFUSALS],
    };

    fn ask(&mut self) {
        self.asked = more(self.asked);
    }

    fn agree(&mut self, refusal: Option<Refusal>) {
        self.agreed = more(self.agreed);
        if let Some(refusal) = refusal {
            let place = (u32::from(refusal) as usize).wrapping_sub(1);
            if let Some(count) = self.refused.get_mut(place) {
                *count = more(*count);
            }
        }
    }
}

impl fmt::Display for Counts {
    fn fmt<W: fmt::Write>(&self, f: &mut fmt::Formatter<W>) -> fmt::Result {
        write!(f, "{} asked, {} agreed", self.asked, self.agreed)?;
        for (number, count) in (1u32..).zip(&self.refused) {
            if *count != 0 {
                write!(f, ", {count} refused with {number}")?;
            }
        }
        Ok(())
    }
}

impl AtTheCount {
    const NONE: AtTheCount = AtTheCount {
        asked: 0,
        outside: 0,
    };

    // A question more.
    pub(crate) fn ask(&mut self, is_outside: bool) {
        self.asked = more(self.asked);
        if is_outside {
            self.outside = more(self.outside);
        }
    }
}

impl Tally {
    pub(crate) fn new() -> Tally {
        Tally {
            kinds: [Counts::NONE; Kind::ALL.len()],
            all: Counts::NONE,
            get: AtTheCount::NONE,
            group: AtTheCount::NONE,
            different: 0,
            not_read: 0,
            not_asked: 0,
        }
    }

    // A question was asked.
    pub(crate) fn ask(&mut self, kind: Kind) {
        self.all.ask();
        if let Some(counts) = self.kinds.get_mut(kind as usize) {
            counts.ask();
        }
    }

    // A question was answered as the list says.
    pub(crate) fn agree(&mut self, kind: Kind, refusal: Option<Refusal>) {
        self.all.agree(refusal);
        if let Some(counts) = self.kinds.get_mut(kind as usize) {
            counts.agree(refusal);
        }
    }

    // A line for each kind.
    pub(crate) fn print_kinds<W: io::Write>(&self, report: &mut W) -> io::Result<()> {
        for (kind, counts) in Kind::ALL.iter().zip(&self.kinds) {
            writeln!(report, "{kind}: {counts}")?;
        }
        Ok(())
    }

    // What get and group answered where the number is the count.
    pub(crate) fn print_at_the_count<W: io::Write>(&self, report: &mut W) -> io::Result<()> {
        writeln!(
            report,
            "get at the count: {} asked, {} answered none",
            self.get.asked, self.get.outside
        )?;
        writeln!(
            report,
            "group at the count: {} asked, {} refused with 14",
            self.group.asked, self.group.outside
        )
    }

    // The totals.
    pub(crate) fn print_totals<W: io::Write>(&self, report: &mut W) -> io::Result<()> {
        writeln!(report, "all: {}", self.all)?;
        writeln!(
            report,
            "{} different, {} not read, {} of other kinds not asked",
            self.different, self.not_read, self.not_asked
        )
    }
}
