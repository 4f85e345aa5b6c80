// The room of a call for items of one size.
ghost use Rattle.std.specs.Prelude.{◌≡◌, ◌*◌, ◌≤◌, length, leb};
ghost use Rattle.calls.specs.Calls.{one_room, room_for};

// Room for one item, or none.
pub fn one_room(out: &[u8], size: usize) -> usize
    ensures is { result ≡ one_room size out.now }
    ensures fits { size * result ≤ length out.now }
{
    if out.len() < size { 0 } else { 1 }
}

// Whether so many fit.
pub fn has_room(out: &[u8], items: usize, size: usize) -> bool
    ensures { result ≡ leb (size * items) (length out.now) }
{
    match size.checked_mul(items) {
        Some(bytes) => bytes <= out.len(),
        None => false,
    }
}

// As many items as fit; none where the slice for the count is too short.
pub fn room_for(out: &[u8], count: &[u8], size: usize) -> usize
    ensures is { result ≡ room_for size out.now count.now }
    ensures fits { size * result ≤ length out.now }
{
    if count.len() < 8 {
        return 0;
    }
    if size < 1 {
        return 0;
    }
    out.len() / size
}
