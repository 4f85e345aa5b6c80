// Positions in nanodegrees through C.
ghost use Rattle.std.specs.Prelude.{◌≡◌};
ghost use Rattle.answers.specs.Codes.{Answers};
ghost use Rattle.nuorpyts.specs.Walks.{nano_in};

use answers::codes::OUTSIDE;
use answers::layout::put_answer;
use answers::record::record_in;
use elements::positions::{nano_lat, nano_lon};
use numbers::signed::Signed;
use protobuf::refusal::Refusal;

// The two numbers, by the record in a slice.
fn nano_in(rec: &[u8], lat: usize, lon: usize) -> Result<[u64; 2], Refusal>
    ensures { result ≡ nano_in rec.now lat lon }
{
    let block = record_in(rec)?;
    let north = nano_lat(block, i64::of_bits(lat as u64));
    let east = nano_lon(block, i64::of_bits(lon as u64));
    Ok([north.bits(), east.bits()])
}

// The nanodegrees of a raw latitude and a raw longitude, all four as their two's complement at 64 bits: the two go to `out`. 14 where
// `out` is shorter than them or `rec` is no record.
#[unsafe(no_mangle)]
pub extern "C" fn nuorpyts_nanodegrees(rec: &[u8], lat: usize, lon: usize, out: &mut [u8]) -> u32
    ensures { Answers 2 (λ ws. ws) out.old (nano_in rec.now lat lon) result out.new }
{
    if out.len() < 16 {
        return OUTSIDE;
    }
    put_answer(out, nano_in(rec, lat, lon))
}
