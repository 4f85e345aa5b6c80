// Numbers into a slice that the caller lends.
ghost use Rattle.std.specs.Prelude.{◌≡◌, ◌*◌, ◌≤◌, length};
ghost use Rattle.numbers.specs.Little.{written};
ghost use Rattle.answers.specs.Words.{words, filled, filled_at};

use numbers::little::Little;

// Puts numbers one behind the other into a slice, each where there is room for it. Its caller lends exactly their bytes, so that the compiler
// knows the slice's length where it knows how many there are, and each number is one store.
fn put_all(room: &mut [u8], numbers: &[u64])
    requires { 8 * length numbers.now ≤ length room.old }
    ensures { room.new ≡ written room.old 0 (words numbers.now) }
{
    for (i, number) in numbers.iter().enumerate() {
        (*number).write(room, 8 * i);
    }
}

// Puts numbers into the bytes from `at` on, 8 each, one behind the other; no byte changes where the slice is too short for all of them.
pub fn put_at(out: &mut [u8], at: usize, numbers: &[u64])
    ensures { out.new ≡ filled_at out.old at numbers.now }
{
    if out.len() < at {
        return;
    }
    if (out.len() - at) / 8 < numbers.len() {
        return;
    }
    let end = at + 8 * numbers.len();
    put_all(&mut out[at..end], numbers);
}

// Puts numbers into the slice's first bytes.
pub fn put_numbers(out: &mut [u8], numbers: &[u64])
    ensures { out.new ≡ filled out.old numbers.now }
{
    put_at(out, 0, numbers);
}
