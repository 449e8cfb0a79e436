// Where the tiles of a side lie, and which sides are refused.
// Kept: a side is at most 4,096 and a tile's number below 8 by clauses; a struct round either would be made of a bare number just before each call and say no more.
ghost use Rattle.std.specs.Prelude.{◌≡◌, ◌<◌, ◌≤◌, ◌||◌};
ghost use Rattle.spec.specs.Clahe.{tile_side, tile_start, tile_size};
ghost use Rattle.spec.specs.Refusals.{side_refused};

// How many rows or columns a tile has, but for the last one.
pub fn tile_side(s: usize) -> usize
    requires { s ≤ 4096 }
    ensures { result ≡ tile_side s }
{
    (s + 7) / 8
}

// Where tile k begins.
pub(crate) fn tile_start(s: usize, k: usize) -> usize
    requires { (s ≤ 4096) × (k < 8) }
    ensures { result ≡ tile_start s k }
{
    k * tile_side(s)
}

// How many rows or columns tile k has: the last may be shorter, or empty.
pub(crate) fn tile_size(s: usize, k: usize) -> usize
    requires { (s ≤ 4096) × (k < 8) }
    ensures { result ≡ tile_size s k }
{
    tile_side(s).min(s.saturating_sub(tile_start(s, k)))
}

fn side_refused(s: usize) -> bool
    requires { s ≤ 4096 }
    ensures { result ≡ side_refused s }
{
    7 * tile_side(s) > s
}

// Refusal 5, for a band with a valid pixel.
pub fn either_side_refused(rows: usize, cols: usize) -> bool
    requires { (rows ≤ 4096) × (cols ≤ 4096) }
    ensures { result ≡ (side_refused rows || side_refused cols) }
{
    side_refused(rows) || side_refused(cols)
}
