// Little-endian numbers of 4 and 8 bytes, at a place of the bytes that are lent. Where they pass the end, 0 is read and nothing is written.
// Each compiles to its two tests and one load or store.
ghost use Rattle.std.specs.Prelude.{◌≡◌, ℕ, ◌+◌, length, nat_le};
ghost use Rattle.numbers.specs.Little.{little, number_at, written, written_at};
ghost use Rattle.numbers.specs.Choose.{choose};

// An unsigned type by its bytes: u32 and u64.
pub trait Little: Copy {
    ghost size: { ℕ };

    ghost to_nat: { Self → ℕ };

    // The number in the bytes from `at` on; 0 where they pass the end: it is total, and what a slot's numbers mean rests on that 0.
    fn read(s: &[u8], at: usize) -> Self
        ensures { to_nat result ≡ number_at size s.now at };

    // Writes the number into the bytes from `at` on; no byte changes where they pass the end.
    fn write(self, s: &mut [u8], at: usize)
        ensures { s.new ≡ written_at size s.old at (to_nat self) };
}

impl Little for u32 {
    ghost size = { 4 };

    ghost to_nat = { λ n. n };

    fn read(s: &[u8], at: usize) -> u32 {
        u32::from_le_bytes(bytes_at(s, at))
    }

    fn write(self, s: &mut [u8], at: usize) {
        put_bytes(s, at, u32::to_le_bytes(self));
    }
}

impl Little for u64 {
    ghost size = { 8 };

    ghost to_nat = { λ n. n };

    fn read(s: &[u8], at: usize) -> u64 {
        u64::from_le_bytes(bytes_at(s, at))
    }

    fn write(self, s: &mut [u8], at: usize) {
        put_bytes(s, at, u64::to_le_bytes(self));
    }
}

// The N bytes from `at` on; zeros where they pass the end. Here and below one test leaves after the other: so the compiler keeps the way of
// bytes that are there straight, which is a fifth of what looking up a string takes.
fn bytes_at<const N: usize>(s: &[u8], at: usize) -> [u8; N]
    ensures value { little result ≡ number_at N s.now at }
    ensures size { length result ≡ N }
{
    let mut bytes = [0; N];
    if s.len() < at {
        return bytes;
    }
    if s.len() - at < N {
        return bytes;
    }
    bytes.copy_from_slice(&s[at..at + N]);
    bytes
}

// Writes N bytes from `at` on; no byte changes where they pass the end.
fn put_bytes<const N: usize>(s: &mut [u8], at: usize, bytes: [u8; N])
    ensures { s.new ≡ choose (nat_le (at + N) (length s.old)) (written s.old at bytes.entry) s.old }
{
    if s.len() < at {
        return;
    }
    if s.len() - at < N {
        return;
    }
    s[at..at + N].copy_from_slice(&bytes);
}
