// A group through C: its kind, its dense message, and its messages of one field, one after the other.
ghost use Rattle.std.specs.Prelude.{◌≡◌};
ghost use Rattle.fields.specs.Outcome.{each};
ghost use Rattle.fields.specs.Part.{moved};
ghost use Rattle.groups.specs.Group.{dense_in};
ghost use Rattle.answers.specs.Codes.{Answers};
ghost use Rattle.answers.specs.Group.{part_words, kind_words};
ghost use Rattle.answers.specs.Messages.{message_asked, message_code, message_state, message_out};
ghost use Rattle.nuorpyts.specs.Group.{kind_in};

use answers::codes::{OUTSIDE, code};
use answers::layout::put_answer;
use answers::step::message;
use fields::part::{Part, part_fits};
use groups::classify::{BlockType, classify_group};
use groups::group::dense;
use protobuf::refusal::Refusal;

// The kind of the group in a range of the buffer.
fn kind_in(buffer: &[u8], start: usize, len: usize) -> Result<BlockType, Refusal>
    ensures { result ≡ kind_in buffer.now start len }
{
    if !part_fits(buffer.len(), start, len) {
        return Err(Refusal::Outside);
    }
    let end = start + len;
    Ok(classify_group(&buffer[start..end]))
}

// The kind of the group in a range of the buffer: its number goes to `out`. 14 where `out` is shorter than it or the range passes the
// buffer.
#[unsafe(no_mangle)]
pub extern "C" fn nuorpyts_classify(buffer: &[u8], start: usize, len: usize, out: &mut [u8]) -> u32
    ensures { Answers 1 kind_words out.old (kind_in buffer.now start len) result out.new }
{
    if out.len() < 8 {
        return OUTSIDE;
    }
    put_answer(out, kind_in(buffer, start, len))
}

// The part of the dense message of the group in `len` bytes from `start`, present or not: 14 where `out` is too short for its numbers, then
// what `dense` refuses.
#[unsafe(no_mangle)]
pub extern "C" fn nuorpyts_dense(buffer: &[u8], start: usize, len: usize, out: &mut [u8]) -> u32
    ensures { Answers 3 part_words out.old (each (moved start) (dense_in buffer.now start len)) result out.new }
{
    if out.len() < 24 {
        return OUTSIDE;
    }
    put_answer::<3, Part>(out, dense(buffer, start, len))
}

// The next message of the state's field, as a part, with the state behind it: 14 where the slot is too short for a state; 101 where it is
// an ended one, and both leave it as it is. Else 14 where no state has its numbers or `out` is too short for a part, then what the
// iterator's step refuses, and 101 where it has ended: the slot then holds the ended state, and `out` is as it was.
#[unsafe(no_mangle)]
pub extern "C" fn nuorpyts_message(buffer: &[u8], state: &mut [u8], out: &mut [u8]) -> u32
    ensures code { result ≡ message_code (message_asked buffer.now state.old out.old) }
    ensures next { state.new ≡ message_state buffer.now state.old out.old }
    ensures after { out.new ≡ message_out out.old (message_asked buffer.now state.old out.old) }
{
    code(message(buffer, state, out))
}
