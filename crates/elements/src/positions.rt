// Positions in nanodegrees: offset + granularity × raw, wrapping at 64 bits. They refuse nothing. Two names for one call: a function over both
// would be lent the offset, and that is `nanodegrees` itself.
ghost use Rattle.std.specs.Prelude.{◌≡◌};
ghost use Rattle.numbers.specs.Signed.{nanodegrees_of};

use numbers::signed::nanodegrees;
use wire::record::WireBlock;

// The latitude of a raw one, by the record's granularity and lat_offset.
pub fn nano_lat(block: WireBlock, lat: i64) -> i64
    ensures { result ≡ nanodegrees_of block.latoffset block.granularity lat }
{
    nanodegrees(block.latoffset, block.granularity, lat)
}

// The longitude of a raw one, by the record's granularity and lon_offset.
pub fn nano_lon(block: WireBlock, lon: i64) -> i64
    ensures { result ≡ nanodegrees_of block.lonoffset block.granularity lon }
{
    nanodegrees(block.lonoffset, block.granularity, lon)
}
