// Signed numbers: what a varint's value means in a field of type int32, int64, sint32 or sint64, and sums and products that wrap.
ghost use Rattle.std.specs.Prelude.{◌≡◌, ◌≤◌, ◌*◌, ◌%◌, ◌^◌, ℕ, ℤ};
ghost use Rattle.std.proofs.Common.{rules};
ghost use Rattle.numbers.specs.Signed.{twos, zigzag, residue, wrapping_add, wrapping_mul, nanodegrees_of, is_int32};

// A signed type by its width: i32 and i64.
pub trait Signed: Copy {
    ghost width: { ℕ };

    ghost to_int: { Self → ℤ };

    // The lowest bits of n, as many as the type has.
    fn low_bits(n: u64) -> u64
        ensures { result ≡ n % 2 ^ width };

    // The number whose bits in two's complement are the lowest of n.
    fn of_bits(n: u64) -> Self
        ensures { to_int result ≡ twos width n };

    // The 64 bits of the number in two's complement.
    fn bits(self) -> u64
        ensures { result ≡ residue 64 (to_int self) };

    // The number that zigzag spells by the lowest bits of n: 0, −1, 1, −2 and so on.
    final fn of_zigzag(n: u64) -> Self
        ensures { to_int result ≡ zigzag width n }
    {
        let low = Self::low_bits(n);
        let half = low / 2;
        if low % 2 == 0 {
            Self::of_bits(half)
        } else {
            Self::of_bits(!half)
        }
    }

    // The sum, wrapping at the type's width.
    final fn plus(self, other: Self) -> Self
        ensures { to_int result ≡ wrapping_add width (to_int self) (to_int other) }
    {
        Self::of_bits(self.bits().wrapping_add(other.bits()))
    }

    // The product, wrapping at the type's width.
    final fn times(self, other: Self) -> Self
        ensures { to_int result ≡ wrapping_mul width (to_int self) (to_int other) }
    {
        Self::of_bits(wrapping_mul_u64(self.bits(), other.bits()))
    }

    ghost narrow: { width ≤ 64 };
}

impl Signed for i64 {
    ghost width = { 64 };

    ghost to_int = { λ z. z };

    ghost narrow = { Prim.search rules };

    fn low_bits(n: u64) -> u64 {
        n
    }

    fn of_bits(n: u64) -> i64 {
        n.cast_signed()
    }

    fn bits(self) -> u64 {
        self.cast_unsigned()
    }
}

impl Signed for i32 {
    ghost width = { 32 };

    ghost to_int = { λ z. z };

    ghost narrow = { Prim.search rules };

    fn low_bits(n: u64) -> u64 {
        n % 0x1_0000_0000
    }

    fn of_bits(n: u64) -> i32 {
        (Self::low_bits(n) as u32).cast_signed()
    }

    fn bits(self) -> u64 {
        i64::from(self).cast_unsigned()
    }
}

// Whether the number whose 64 bits in two's complement are `value` is one of int32's.
pub fn is_int32(value: u64) -> bool
    ensures { result ≡ is_int32 value }
{
    value < 0x8000_0000 || 0xFFFF_FFFF_8000_0000 <= value
}

// The product, wrapping at 64 bits: of the halves' four products the highest is a multiple of 2^64. It is our own, as docs/DECISIONS.md says.
fn wrapping_mul_u64(a: u64, b: u64) -> u64
    ensures { result ≡ (a * b) % 2 ^ 64 }
{
    let al = a % 0x1_0000_0000;
    let ah = a / 0x1_0000_0000;
    let bl = b % 0x1_0000_0000;
    let bh = b / 0x1_0000_0000;
    let cross = (al * bh).wrapping_add(bl * ah);
    (cross << 32).wrapping_add(al * bl)
}

// A position: offset + granularity × raw, wrapping at 64 bits.
pub fn nanodegrees(offset: i64, granularity: i32, raw: i64) -> i64
    ensures { result ≡ nanodegrees_of offset granularity raw }
{
    offset.plus(i64::from(granularity).times(raw))
}
