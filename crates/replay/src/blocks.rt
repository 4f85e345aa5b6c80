// The questions on a block and a group: the scan, the check, a string and a group by number, a group's kind, its dense message, its messages.
use crate::answer::{ROOM, Said, Text, accept, refuse, say, stop_steps};
use crate::messages::Message;
use accept::check::check;
use fields::part::Part;
use groups::classify::classify_group;
use groups::group::{WireMessageIter, dense};
use lookup::by_number::{get, group};
use protobuf::refusal::Refusal;
use replaying::tables::block_and_tables;
use replaying::words::{Hex, PartOf};
use std::fmt;
use std::fmt::Write;
use wire::record::WireBlock;
use wire::scan::scan;

// The record of a scanned block.
fn put_record(text: &mut Text, block: WireBlock) -> fmt::Result {
    write!(
        text,
        " 0 {} {} {} {}",
        block.granularity, block.dategranularity, block.latoffset, block.lonoffset
    )?;
    write!(
        text,
        " {} {} {} {}",
        block.stringtable, block.strings, block.grouptable, block.groups
    )
}

// The block in the first `block` bytes of a buffer, and then all bytes behind it.
fn scan_whole(text: &mut Text, buffer: &mut [u8], block: usize) -> Said {
    match scan(buffer, block) {
        Err(refusal) => refuse(text, refusal),
        Ok(record) => {
            put_record(text, record)?;
            say(text, Hex(buffer.get(block..).unwrap_or(&[])))
        }
    }
}

// The same in the first `n` bytes of a buffer: no text where it has fewer.
pub(crate) fn ask_scan(text: &mut Text, buffer: &mut [u8], block: usize, n: usize) -> Said {
    match buffer.get_mut(..n) {
        Some(first) => scan_whole(text, first, block),
        None => Ok(None),
    }
}

// What the check says of a scanned block.
fn check_scanned(text: &mut Text, s: &[u8], block: WireBlock) -> Said {
    match check(s, block) {
        Ok(()) => say(text, "0"),
        Err(refusal) => refuse(text, refusal),
    }
}

// The answer where the block could not be scanned.
fn unscanned(text: &mut Text, refusal: Refusal) -> Said {
    text.write_str(" unscanned")?;
    refuse(text, refusal)
}

// The block in the first `block` bytes of a buffer, scanned there. Behind its tables the buffer is cut off.
pub(crate) fn ask_check(text: &mut Text, buffer: &mut [u8], block: usize) -> Said {
    match scan(buffer, block) {
        Err(refusal) => unscanned(text, refusal),
        Ok(record) => check_scanned(text, block_and_tables(buffer, record), record),
    }
}

// A record of nothing, which the questions on a table fill with what they say of it.
pub(crate) const NO_RECORD: WireBlock = WireBlock {
    block: 0,
    strings: 0,
    stringtable: 0,
    groups: 0,
    grouptable: 0,
    granularity: 0,
    dategranularity: 0,
    latoffset: 0,
    lonoffset: 0,
};

// Start and length of what was found.
fn put_range(text: &mut Text, part: Part) -> Said {
    accept(text, format_args!("{} {}", part.start, part.len))
}

// The string of a number.
pub(crate) fn ask_get(text: &mut Text, s: &[u8], block: WireBlock, index: usize) -> Said {
    match get(s, block, index) {
        Ok(None) => say(text, "~"),
        Ok(Some(part)) => put_range(text, part),
        Err(refusal) => refuse(text, refusal),
    }
}

// The group of a number.
pub(crate) fn ask_group(text: &mut Text, s: &[u8], block: WireBlock, index: usize) -> Said {
    match group(s, block, index) {
        Ok(part) => put_range(text, part),
        Err(refusal) => refuse(text, refusal),
    }
}

// The group's kind, by its number in the list.
pub(crate) fn ask_classify(text: &mut Text, s: &[u8]) -> Said {
    say(text, u64::from(classify_group(s)))
}

// The group's dense message.
pub(crate) fn ask_densepass(text: &mut Text, of: Message) -> Said {
    match dense(of.s, of.start, of.len) {
        Ok(part) => accept(
            text,
            PartOf {
                part,
                base: of.start,
            },
        ),
        Err(refusal) => refuse(text, refusal),
    }
}

// The group's messages of a field, each by its start and length. More of them than an answer has room for are cut. A number that no 32 bits
// hold is no field's.
pub(crate) fn ask_messages(text: &mut Text, of: Message, field: usize) -> Said {
    let mut place = WireMessageIter::new(of.start, of.len, u32::try_from(field).unwrap_or(0));
    for _ in 0..ROOM {
        let step = place.step(of.s);
        match step.said {
            Ok(None) => return say(text, "."),
            Err(refusal) => return stop_steps(text, refusal),
            Ok(Some(part)) => {
                write!(text, " {} {}", part.start.wrapping_sub(of.start), part.len)?;
                place = step.next;
            }
        }
    }
    Ok(None)
}
