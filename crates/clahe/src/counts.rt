// How many valid pixels of a tile stand at each level, and the level of each pixel.
ghost use Rattle.std.specs.Prelude.{◌≡◌, ℕ, ◌+◌, ◌*◌, ◌<◌, ◌≤◌, ◌&&◌, T, map, length, slice_index};
ghost use Rattle.std.specs.Float.{binary64};
ghost use Rattle.std.specs.Float.Ieee.{sub, div, lt, le};
ghost use Rattle.spec.specs.Floats.{zero64, one64};
ghost use Rattle.spec.specs.Lists.{stored};
ghost use Rattle.spec.specs.Clahe as Clahe;
ghost use Rattle.clahe.specs.Within.{InUnit, Plain};
ghost use Rattle.clahe.specs.Band.{normal_pixels, levels, level_at, tile_levels};

use super::held::held;
use super::tiles::{tile_size, tile_start};
use numeric::depth::Depth;
use raster::{Band, Raster};
use types::WindowFloats;

// The level of a value, of which it may be known that it is in 0.0..1.0.
fn level(u: f64, within: bool) -> u8
    requires { T within → InUnit u }
    ensures { result ≡ Clahe.level_of u }
{
    numeric::round_small(held(u, within) * 255.0) as u8
}

// The level of a normalised value.
pub fn level_of(u: f64) -> u8
    ensures { result ≡ Clahe.level_of u }
{
    level(u, false)
}

// Whether a window's ends are in order and its range covers them: then what it normalises is in 0.0..1.0.
fn is_plain(window: WindowFloats) -> bool
    ensures { result ≡ (le window.low window.high && lt zero64 window.range && le (div binary64 (sub binary64 window.high window.low) window.range) one64) }
{
    let WindowFloats {
        low,
        high,
        range,
        ..
    } = window;
    low <= high && range > 0.0 && (high - low) / range <= 1.0
}

// Adds the valid pixels of a row to the counts of their levels, and keeps the level of each pixel in the output: 0 of an invalid one.
fn count_row<D: Depth>(
    band: &Band,
    window: WindowFloats,
    plain: bool,
    hist: &mut [u32; 256],
    out: &mut [D],
)
    requires plain { T plain → Plain window.low window.high window.range }
    requires sized { (length band.now.db.now ≤ 4096) × (length out.old ≡ length band.now.db.now) }
    requires few { (k : ℕ) → slice_index hist.old k ≤ 16777216 }
    ensures counts { hist.new ≡ stored hist.old (levels (normal_pixels window band.now)) }
    ensures levels { out.new ≡ map D.of (map level_at (normal_pixels window band.now)) }
{
    // Kept: no plainer as a zip of values and marks, since the place is needed for the output too.
    let valid_mask = band.valid_mask;
    for (c, v) in band.db.iter().enumerate() {
        out[c] = if valid_mask[c] == 0 {
            D::black()
        } else {
            let u = numeric::normalized(*v, window.low, window.high, window.range);
            let b = level(u, plain);
            hist[usize::from(b)] += 1;
            D::of_level(b)
        };
    }
}

// The counts of the tile in row ty and column tx of tiles, and the levels of its pixels in their places of the output.
// Kept: ty and tx are below 8 by a clause; a struct of both would be made of a tile's number just before the only call and say no more.
pub(crate) fn count_tile<D: Depth>(
    raster: &Raster,
    window: WindowFloats,
    ty: usize,
    tx: usize,
    hist: &mut [u32; 256],
    out: &mut [D],
)
    requires tile { (ty < 8) × (tx < 8) }
    requires empty { (k : ℕ) → slice_index hist.old k ≡ 0 }
    requires sized { length out.old ≡ raster.now.sides.rows * raster.now.sides.cols }
    ensures counts { hist.new ≡ Clahe.tile_counts (Clahe.tile_pixels raster.now.sides.rows raster.now.sides.cols (normal_pixels window raster.now.band) ty tx) }
    ensures levels { out.new ≡ tile_levels D.of raster.now.sides.rows raster.now.sides.cols (normal_pixels window raster.now.band) (ty * 8 + tx) out.old }
{
    let band = raster.band;
    let sides = raster.sides;
    let top = tile_start(sides.rows, ty);
    let height = tile_size(sides.rows, ty);
    let left = tile_start(sides.cols, tx);
    let width = tile_size(sides.cols, tx);
    if width == 0 {
        return;
    }
    let plain = is_plain(window);
    for r in 0..height {
        let at = (top + r) * sides.cols + left;
        let end = at + width;
        let row = band.part(at, end);
        count_row(&row, window, plain, hist, &mut out[at..end]);
    }
}
