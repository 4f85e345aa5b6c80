// A part of the bytes, everywhere the same: present or not, start and length, 0 and 0 where not present. Whether it fits, and its
// bytes. It is a flag beside two numbers, and no Option, since so it passes through C.
ghost use Rattle.std.specs.Prelude.{◌≡◌, ◌+◌, leb};
ghost use Rattle.fields.specs.Part.{bytes_of, stands_at};

#[derive(Clone, Copy)]
pub struct Part {
    pub present: bool,
    pub start: usize,
    pub len: usize,
}

pub const NONE: Part = Part {
    present: false,
    start: 0,
    len: 0,
};

// Whether `len` bytes from `start` end within `n`.
pub fn part_fits(n: usize, start: usize, len: usize) -> bool
    ensures { result ≡ leb (start + len) n }
{
    if n < start { false } else { len <= n - start }
}

// The bytes of a part, themselves and not a copy: empty where nothing is present or the range passes the buffer.
#[tactic(auto, unfolding(crate::specs::Part::bytes_of))]
pub fn bytes_of(buffer: &[u8], part: Part) -> &[u8]
    ensures bytes { result.now ≡ bytes_of buffer.now part }
    ensures place { result.ref_ptr ≡ stands_at buffer.now buffer.entry.ref_ptr part }
{
    let start = part.start;
    let len = part.len;
    if !part.present {
        return &buffer[..0];
    }
    if !part_fits(buffer.len(), start, len) {
        return &buffer[..0];
    }
    &buffer[start..start + len]
}
