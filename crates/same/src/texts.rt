// Texts by their bytes.
ghost use Rattle.std.specs.Prelude.{◌≡◌};
ghost use Rattle.fields.specs.Part.{bytes_of};
ghost use Rattle.walk.specs.Same.{same_text};

use fields::part::{Part, bytes_of};

// Whether two parts, each of its own buffer, hold the same bytes, as they are lent: none of a part that is not present or passes its
// buffer.
pub(crate) fn same_text(first: &[u8], p: Part, second: &[u8], q: Part) -> bool
    ensures { result ≡ same_text (bytes_of first.now p) (bytes_of second.now q) }
{
    bytes_of(first, p) == bytes_of(second, q)
}
