// The tiles' running sums.
ghost use Rattle.std.specs.Prelude.{◌≡◌, ◌*◌, ◌^◌, ◌<◌, ◌≤◌, map, length};
ghost use Rattle.std.specs.Float.{binary64};
ghost use Rattle.std.specs.Float.Ieee.{div};
ghost use Rattle.spec.specs.Floats.{zero64, one64, of_count, clamp_float};
ghost use Rattle.spec.specs.Lists.{sum_of, places};
ghost use Rattle.spec.specs.Clahe as Clahe;
ghost use Rattle.clahe.specs.Band.{normal_pixels, level_at, tile_levels};
ghost use Rattle.clahe.specs.Work.{Holds};

use super::clip::{clip_at, threshold};
use super::counts::count_tile;
use super::tiles::tile_size;
use numeric::depth::Depth;
use raster::Raster;
use types::WindowFloats;

// The sum of all bins.
pub fn sum_of(hist: &[u32; 256]) -> u64
    ensures { (result ≡ sum_of hist.now) × (result ≤ 2 ^ 40) }
{
    hist.iter().map(|n| u64::from(*n)).sum()
}

// A running sum over the whole, held to 0..1.
fn part(sum: u64, whole: f64) -> f64
    requires { sum ≤ 2 ^ 53 }
    ensures { result ≡ clamp_float zero64 one64 (div binary64 (of_count sum) whole) }
{
    numeric::clamp_f64(sum as f64 / whole, 0.0, 1.0)
}

// The running sums of a tile's bins, over their sum.
pub fn write_sums(hist: &[u32; 256], sums: &mut [f64; 256])
    ensures { sums.new ≡ map (Clahe.sum_at hist.now) (places 256) }
{
    let whole = numeric::max_f64(sum_of(hist) as f64, 1.0);
    let mut so_far = 0;
    for (b, n) in hist.iter().enumerate() {
        so_far += u64::from(*n);
        sums[b] = part(so_far, whole);
    }
}

// The running sums of tile k, the tiles being counted row by row, and the levels of its pixels in their places of the output.
pub fn tile_sums<D: Depth>(
    raster: &Raster,
    window: WindowFloats,
    k: usize,
    sums: &mut [f64; 256],
    out: &mut [D],
)
    requires tile { k < 64 }
    requires sized { length out.old ≡ raster.now.sides.rows * raster.now.sides.cols }
    ensures sums { sums.new ≡ map (Clahe.sum_at (Clahe.tile_table raster.now.sides.rows raster.now.sides.cols (normal_pixels window raster.now.band) k)) (places 256) }
    ensures levels { out.new ≡ tile_levels D.of raster.now.sides.rows raster.now.sides.cols (normal_pixels window raster.now.band) k out.old }
{
    let ty = k / 8;
    let tx = k % 8;
    let mut hist = [0u32; 256];
    count_tile(raster, window, ty, tx, &mut hist, out);
    let sides = raster.sides;
    let limit = threshold(tile_size(sides.rows, ty) * tile_size(sides.cols, tx));
    clip_at(&mut hist, limit);
    write_sums(&hist, sums);
}

// The running sums of all tiles, and the levels of all pixels in the output.
pub fn write_tables<D: Depth>(
    raster: &Raster,
    window: WindowFloats,
    work: &mut [f64; 16384],
    out: &mut [D],
)
    requires { length out.old ≡ raster.now.sides.rows * raster.now.sides.cols }
    ensures sums { Holds (Clahe.tile_tables raster.now.sides.rows raster.now.sides.cols (normal_pixels window raster.now.band)) work.new }
    ensures levels { out.new ≡ map D.of (map level_at (normal_pixels window raster.now.band)) }
{
    let mut sums = [0.0; 256];
    // Kept: by places, since of a list that `as_chunks_mut` cuts up the library does not say what it ends as.
    for k in 0..64 {
        tile_sums(raster, window, k, &mut sums, out);
        let at = k * 256;
        let end = at + 256;
        work[at..end].copy_from_slice(&sums);
    }
}
