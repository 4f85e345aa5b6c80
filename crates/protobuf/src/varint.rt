// Varints, the numbers that every other part of the format is made of.
ghost use Rattle.std.specs.Prelude.{◌≡◌};
ghost use Rattle.protobuf.specs.Varint.{varint};

use crate::refusal::Refusal;

// The varint at `at`, its value with the place behind it: 2 where the bytes end in it or before it, 3 where ten bytes have the top bit set,
// 14 where `at` is behind the end.
pub fn read_varint(s: &[u8], at: usize) -> Result<(u64, usize), Refusal>
    ensures { result ≡ varint s.now at }
{
    if s.len() < at {
        return Err(Refusal::Outside);
    }
    let mut value: u64 = 0;
    let mut i = at;
    for k in 0..10u64 {
        if s.len() <= i {
            return Err(Refusal::VarintCut);
        }
        let byte = s[i] as u64;
        // The shift drops what passes 64 bits: of the tenth byte all but the lowest.
        value += (byte % 128) << (7 * k);
        i += 1;
        if byte < 128 {
            return Ok((value, i));
        }
    }
    Err(Refusal::VarintLong)
}
