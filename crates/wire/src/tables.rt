// The tables behind a block: entries of an offset and a length, 4 little-endian bytes each.
ghost use Rattle.std.specs.Prelude.{◌≡◌, ◌/◌, ◌≤◌, length, take, drop};
ghost use Rattle.numbers.specs.Little.{written};
ghost use Rattle.message.specs.Message.{message};
ghost use Rattle.wire.specs.Tables.{entry, entries, Room};

use message::field::next_field;
use numbers::little::Little;

// One entry, at the start of the tail that is lent: the lowest 4 bytes of each number, which are all that an offset or a length within a
// block has.
// Eight bytes an entry: the layout is the interface.
fn write_entry(tail: &mut [u8], start: usize, len: usize)
    requires { 8 ≤ length tail.old }
    ensures { tail.new ≡ written tail.old 0 (entry start len) }
{
    ((start % 0x1_0000_0000) as u32).write(tail, 0);
    ((len % 0x1_0000_0000) as u32).write(tail, 4);
}

// The entries of a message's fields of `tag` (field number times 8, plus wire type 2), from `to` on, where the message is the `len` bytes
// from `base`, before `to`. Each is written into the tail behind those before it; so the fields are read place by place, and no iterator keeps
// the buffer.
pub(crate) fn write_entries(buffer: &mut [u8], base: usize, len: usize, tag: u32, to: usize)
    requires { Room buffer.old base len tag to }
    ensures { buffer.new ≡ written buffer.old to (entries base (tag / 8) (message (take len (drop base buffer.old)))) }
{
    let end = base + len;
    let mut place = to;
    let mut at = 0;
    while let Some((field, next)) = next_field(&buffer[base..end], at).unwrap_or(None) {
        if field.tag == tag {
            let offset = base + field.start;
            write_entry(&mut buffer[place..], offset, field.len);
            place += 8;
        }
        at = next;
    }
}
