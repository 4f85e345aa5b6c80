// The words of an answer. Each is written to any writer of text: to one that keeps the answer, or to one that compares it with a line.
ghost use Rattle.std.specs.Prelude.{◌≤◌, Some, decimal, codes, ◌++◌, flat_map, length};
ghost use Rattle.std.specs.Fmt.{WritesOnOk};
ghost use Rattle.protobuf.specs.Refusal.{number as Refusal·number};
ghost use Rattle.replaying.specs.Words.{or_none, place, part_text, two_digits, flag_or_none, info_text};

use fields::part::Part;
use protobuf::refusal::Refusal;
use std::{fmt, str};
use views::info::WireInfo;

// What was read, `~` where nothing was.
#[derive(Clone, Copy)]
pub struct OrNone<T>(pub Option<T>);

impl<T: fmt::Display> fmt::Display for OrNone<T> {
    ghost output = { λ x. or_none T.output x.0 };

    fn fmt<W: fmt::Write>(&self, f: &mut fmt::Formatter<W>) -> fmt::Result {
        match &self.0 {
            Some(x) => write!(f, "{x}"),
            None => f.write_str("~"),
        }
    }
}

// A refusal's number.
#[derive(Clone, Copy)]
pub struct Code(pub Refusal);

impl fmt::Display for Code {
    ghost output = { λ x. Some (decimal (Refusal·number x.0)) };

    fn fmt<W: fmt::Write>(&self, f: &mut fmt::Formatter<W>) -> fmt::Result {
        write!(f, "{}", u32::from(self.0))
    }
}

// A part: 1 or 0 for whether it is there, its start and its length. The start counts from the place of the message that the part is in.
#[derive(Clone, Copy)]
pub struct PartOf {
    pub part: Part,
    pub base: usize,
}

impl fmt::Display for PartOf {
    ghost output = { λ x. Some (part_text x.part.present (place x.part.present x.part.start x.base) x.part.len) };

    fn fmt<W: fmt::Write>(&self, f: &mut fmt::Formatter<W>) -> fmt::Result {
        let part = self.part;
        let start = if part.present {
            part.start.wrapping_sub(self.base)
        } else {
            part.start
        };
        write!(f, "{} {} {}", u8::from(part.present), start, part.len)
    }
}

// Bytes: `x` and two digits for each.
#[derive(Clone, Copy)]
pub struct Hex<'a>(pub &'a [u8]);

impl<'a> fmt::Display for Hex<'a> {
    ghost output = { λ x. Some (codes "x" ++ flat_map two_digits x.0.now) };

    fn fmt<W: fmt::Write>(&self, f: &mut fmt::Formatter<W>) -> fmt::Result {
        f.write_str("x")?;
        for bytes in self.0.chunks(AT_A_TIME) {
            write_digits(f, bytes)?;
        }
        Ok(())
    }
}

// How many bytes' digits are written at a time: one by one they would take most of the time of a long answer.
const AT_A_TIME: usize = 64;

// The digits of some bytes, at most as many as are written at a time.
fn write_digits<W: fmt::Write>(f: &mut fmt::Formatter<W>, bytes: &[u8]) -> fmt::Result
    requires { length bytes.now ≤ 64 }
    ensures { WritesOnOk W.write_str_gives f.old result (flat_map two_digits bytes.now) f.new }
{
    let mut room = [0; 2 * AT_A_TIME];
    let digits = &mut room[..2 * bytes.len()];
    let Ok(()) = hex::encode_to_slice(bytes, digits) else {
        unreachable!();
    };
    let Ok(text) = str::from_utf8(digits) else {
        unreachable!();
    };
    f.write_str(text)
}

// A flag that was read, as 1 or 0, `~` where none was.
#[derive(Clone, Copy)]
struct FlagOrNone(Option<bool>);

impl fmt::Display for FlagOrNone {
    ghost output = { λ x. Some (flag_or_none x.0) };

    fn fmt<W: fmt::Write>(&self, f: &mut fmt::Formatter<W>) -> fmt::Result {
        match self.0 {
            Some(flag) => write!(f, "{}", u8::from(flag)),
            None => f.write_str("~"),
        }
    }
}

// What the view of an Info reads, each number or `~`.
#[derive(Clone, Copy)]
pub struct InfoWords(pub WireInfo);

impl fmt::Display for InfoWords {
    ghost output = { λ x. Some (info_text x.0) };

    fn fmt<W: fmt::Write>(&self, f: &mut fmt::Formatter<W>) -> fmt::Result {
        let info = self.0;
        write!(
            f,
            "{} {} {}",
            OrNone(info.version),
            OrNone(info.timestamp),
            OrNone(info.changeset)
        )?;
        write!(
            f,
            " {} {} {}",
            OrNone(info.uid),
            OrNone(info.user),
            FlagOrNone(info.visible)
        )
    }
}
