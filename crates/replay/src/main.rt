// Replays the fixed list of answers: each line's question is asked of the proved functions, and what they answer is compared, as text,
// with the answer in the line. Prints the lines that differ, a line for each kind of question, document 01's examples that have no star,
// and the totals.
#![tactic(auto)]

mod answer;
mod ask;
mod blocks;
mod kind;
mod leaf;
mod messages;
mod question;
mod tally;

use ask::{AHEAD, Answer};
use kind::Kind;
use protobuf::refusal::Refusal;
use question::{Question, kind_of, question_of, read_line};
use replaying::list::{LIST, list_buffer, read_full, text_of};
use std::fs::File;
use std::io;
use std::io::Write;
use tally::{Tally, more};

// What is told of the list, what was counted so far, and what was answered last, whose text keeps its room from question to question.
#[derive(Drop)]
struct Replay<W> {
    report: W,
    tally: Tally,
    answer: Answer,
}

impl<W: Write> Replay<W> {
    // A line that differs, whole, with what was answered: at most 20.
    fn differ(&mut self, line: &[u8]) -> io::Result<()> {
        if self.tally.different < 20 {
            self.report.write_all(b"different: ")?;
            self.report.write_all(line)?;
            writeln!(self.report, "\nanswered:{}", self.answer.text.as_str())?;
        }
        self.tally.different = more(self.tally.different);
        Ok(())
    }

    // Counts the questions on the string or the group whose number is the count.
    fn count_at_the_count(&mut self, question: &Question) {
        let [_, strings, string, _, groups, group] = question.numbers;
        match question.kind {
            Kind::Get if string == strings => self.tally.get.ask(self.answer.is(b" ~")),
            Kind::Group if group == groups => {
                self.tally
                    .group
                    .ask(self.answer.refusal == Some(Refusal::Outside))
            }
            _ => {}
        }
    }

    // Asks the question and compares the answer with the text behind the line's equals sign; then asks it again with other bytes before it,
    // where all places count from its own start.
    fn compare(&mut self, line: &[u8], question: &Question, text: &[u8]) -> io::Result<()> {
        self.tally.ask(question.kind);
        self.answer.ask(question, 0);
        self.count_at_the_count(question);
        let refusal = self.answer.refusal;
        if !self.answer.is(text) {
            return self.differ(line);
        }
        self.answer.ask(question, AHEAD);
        if !self.answer.is(text) {
            return self.differ(line);
        }
        self.tally.agree(question.kind, refusal);
        Ok(())
    }

    // One line of the list.
    fn take_line(&mut self, line: &[u8]) -> io::Result<()> {
        if line.first() == Some(&b'#') {
            return Ok(());
        }
        let Ok(kind) = kind_of(line) else {
            self.tally.not_asked = more(self.tally.not_asked);
            return Ok(());
        };
        match read_line(kind, line) {
            Some((question, text)) => self.compare(line, &question, text),
            None => {
                self.tally.not_read = more(self.tally.not_read);
                Ok(())
            }
        }
    }

    // All lines of the list.
    fn take_lines(&mut self, list: &[u8]) -> io::Result<()> {
        for line in list.split_inclusive(|byte| *byte == b'\n') {
            self.take_line(text_of(line))?;
        }
        Ok(())
    }

    // A question by hand: prints it with what is answered.
    fn show(&mut self, words: &str) -> io::Result<()> {
        let question = kind_of(words.as_bytes())
            .ok()
            .and_then(|kind| question_of(kind, words.as_bytes()));
        match question {
            Some((question, _)) => {
                self.answer.ask(&question, 0);
                writeln!(self.report, "{words} ={}", self.answer.text.as_str())
            }
            None => writeln!(self.report, "{words} ="),
        }
    }

    // Document 01's examples that have no star. The last question has an entry's bytes behind the table, so that the count alone refuses it.
    fn show_examples(&mut self) -> io::Result<()> {
        writeln!(
            self.report,
            "ten ff at a varint, get at the count, group at the count at the end of the buffer and before it:"
        )?;
        self.show("varint r xffffffffffffffffffff 0")?;
        self.show(
            "get p x0a050a000a01611200040000000000000006000000010000000900000000000000 9 2 2",
        )?;
        self.show(
            "group r x0a050a000a01611200040000000000000006000000010000000900000000000000 9 9 2 25 1 1",
        )?;
        self.show(
            "group r x0a050a000a016112000400000000000000060000000100000009000000000000000900000000000000 9 9 2 25 1 1",
        )
    }

    fn replay(&mut self, list: &[u8]) -> io::Result<()> {
        self.take_lines(list)?;
        self.tally.print_kinds(&mut self.report)?;
        self.show_examples()?;
        self.tally.print_at_the_count(&mut self.report)?;
        self.tally.print_totals(&mut self.report)
    }
}

// Each of the two programs opens its own list and starts its own replay.
fn main(rt: HostRuntime) -> io::Result<()> {
    let mut report = io::writer(&rt);
    let mut buf = list_buffer();
    let mut file = File::open(&rt, "answers.txt")?;
    let n = read_full(&mut file, &mut buf)?;
    if n == LIST {
        writeln!(report, "the list may be longer than what was read")?;
    }
    let mut replay = Replay {
        report,
        tally: Tally::new(),
        answer: Answer::new(),
    };
    replay.replay(&buf[..n])
}
