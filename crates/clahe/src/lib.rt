#![tactic(auto)]
// Contrast limited equalisation of a band, tile by tile: `clahe_equalize_normalized` for 8 by 8 tiles, 256 bins and limit 2.0.
mod held; // held.rt: a value held to 0.0..1.0
pub mod tiles; // tiles.rt: where the tiles of a side lie, and which sides are refused
pub mod counts; // counts.rt: how many valid pixels of a tile stand at each level, and the level of each pixel
pub mod clip; // clip.rt: a tile's counts after clipping
pub mod sums; // sums.rt: the tiles' running sums
pub mod sampling; // sampling.rt: the position of a row or a column among the tiles, the two rows of tiles around a row, and the sum there
pub mod columns; // columns.rt: the positions of all columns, worked out once a picture
mod paint; // paint.rt: the values of pixels from the tiles' sums, row by row, each in place of its level

ghost use Rattle.std.specs.Prelude.{◌≡◌, ◌*◌, map, length};
ghost use Rattle.raster.specs.Bands.{pixels_of};
ghost use Rattle.spec.specs.Grey.{normal_pixel};
ghost use Rattle.spec.specs.Gamma.{full_of};
ghost use Rattle.spec.specs.Clahe.{clahe_values};

use columns::{Column, column_positions};
use numeric::depth::Depth;
use paint::shades;
use raster::Raster;
use sums::write_tables;
use types::WindowFloats;

// The values of a raster from its window, before any stretch: first each pixel's level, in the output, then its value in place of it.
// The work list is left with the tiles' sums.
pub fn clahe_values<D: Depth>(
    raster: &Raster,
    window: WindowFloats,
    work: &mut [f64],
    out: &mut [D],
)
    requires { (length work.old ≡ 16384) × (length out.old ≡ raster.now.sides.rows * raster.now.sides.cols) }
    ensures { out.new ≡ map D.of (clahe_values (full_of D.depth) raster.now.sides.rows raster.now.sides.cols (map (normal_pixel window.low window.high window.range) (pixels_of raster.now.band))) }
{
    // The work as an array, so that no contract below says its length. By the clause it always is one, and the return never runs.
    let Ok(work) = <&mut [f64; 16384]>::try_from(work) else {
        return;
    };
    write_tables(raster, window, work, out);
    // Kept: a list of the greatest length, since there is no heap.
    let mut room = [Column {
        first: 0,
        second: 0,
        weight: 0.0,
    }; 4096];
    let columns = &mut room[..raster.sides.cols];
    column_positions(columns);
    shades(raster, work, columns, out);
}
