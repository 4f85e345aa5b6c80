// The record of a scanned block: its nine numbers, and the record that a slice begins with.
ghost use Rattle.std.specs.Prelude.{◌≡◌};
ghost use lib.Dec.{lit<};
ghost use Rattle.answers.specs.Record.{record_words, record_in};

use crate::layout::Layout;
use numbers::little::Little;
use numbers::signed::{Signed, is_int32};
use protobuf::refusal::Refusal;
use wire::record::WireBlock;

impl Layout<9> for WireBlock {
    ghost words = { record_words };

    ghost few = { lit< tt };

    fn numbers(self) -> [u64; 9] {
        [
            self.block as u64,
            self.strings as u64,
            self.stringtable as u64,
            self.groups as u64,
            self.grouptable as u64,
            self.granularity.bits(),
            self.dategranularity.bits(),
            self.latoffset.bits(),
            self.lonoffset.bits(),
        ]
    }
}

// The record in the slice's first 72 bytes: 14 where it is shorter or a granularity is no int32.
pub fn record_in(s: &[u8]) -> Result<WireBlock, Refusal>
    ensures { result ≡ record_in s.now }
{
    if s.len() < 72 {
        return Err(Refusal::Outside);
    }
    let granularity = u64::read(s, 40);
    let dategranularity = u64::read(s, 48);
    if !is_int32(granularity) {
        return Err(Refusal::Outside);
    }
    if !is_int32(dategranularity) {
        return Err(Refusal::Outside);
    }
    Ok(WireBlock {
        block: u64::read(s, 0) as usize,
        strings: u64::read(s, 8) as usize,
        stringtable: u64::read(s, 16) as usize,
        groups: u64::read(s, 24) as usize,
        grouptable: u64::read(s, 32) as usize,
        granularity: i32::of_bits(granularity),
        dategranularity: i32::of_bits(dategranularity),
        latoffset: i64::of_bits(u64::read(s, 56)),
        lonoffset: i64::of_bits(u64::read(s, 64)),
    })
}
