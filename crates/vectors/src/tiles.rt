// Clahe's parts: the sums of tiles, and the equalised pixels of a band that is normalised already.
ghost use Rattle.std.specs.Prelude.{◌<◌};

use super::record::{List, Number, Record};
use super::steps::is_same;
use clahe::columns::column_at;
use clahe::counts::level_of;
use clahe::sampling::{row_at, sample, tile_position};
use clahe::tiles::tile_side;
use raster::Raster;
use types::{Sides, WindowFloats};

// The window of values that are normalised already.
const UNIT: WindowFloats = WindowFloats {
    low: 0.0,
    high: 1.0,
    range: 1.0,
    gamma: 1.0,
};

// Equal to the bit, element by element, from a place of the list on.
fn are_same(found: &[f64], expected: List<'_>, from: usize) -> bool {
    found
        .iter()
        .enumerate()
        .all(|(i, x)| is_same(*x, expected.get(from.wrapping_add(i))))
}

// The front of a list into a list.
fn read<T: Number>(list: List<'_>, to: &mut [T]) {
    for (i, x) in to.iter_mut().enumerate() {
        *x = list.get(i);
    }
}

// Whether a tile of the record's sides and counts has the record's sums.
#[tactic(auto, using(clahe::proofs::Bounds::threshold_low))]
pub(crate) fn tile_agrees(record: Record<'_>) -> bool {
    let counts = record.first();
    let expected = counts.following();
    let Sides { rows, cols } = record.sides();
    if rows > 4096 || cols > 4096 {
        return false;
    }
    let mut hist = [0; 256];
    read(counts, &mut hist);
    if clahe::sums::sum_of(&hist) >= 0x8000_0000 {
        return false;
    }
    clahe::clip::clip_at(&mut hist, clahe::clip::threshold(rows * cols));
    let mut sums = [0.0; 256];
    clahe::sums::write_sums(&hist, &mut sums);
    expected.is_last() && expected.count == 256 && are_same(&sums, expected, 0)
}

// The equalised value of the pixel in row r and column c, from the sums of all tiles.
fn equalised(work: &[f64; 16384], raster: &Raster, r: usize, c: usize, u: f64) -> f64
    requires { (r < raster.now.sides.rows) × (c < raster.now.sides.cols) }
{
    let sides = raster.sides;
    let y = tile_position(tile_side(sides.rows), r);
    let x = tile_position(tile_side(sides.cols), c);
    sample(&row_at(work, y), column_at(x), level_of(u))
}

// Whether tile k of normalised values has the sums that stand in a list from a place on.
fn has_tile(raster: &Raster, k: usize, expected: List<'_>, from: usize) -> bool {
    let mut levels = [0u8; 4096];
    let Some(levels) = levels.get_mut(..raster.band.db.len()) else {
        return false;
    };
    if k >= 64 {
        return false;
    }
    let mut sums = [0.0; 256];
    clahe::sums::tile_sums(raster, UNIT, k, &mut sums, levels);
    are_same(&sums, expected, from)
}

// Whether three tiles of normalised values have the sums that a list of 768 has.
fn have_tiles(raster: &Raster, tiles: List<'_>) -> bool {
    let expected = tiles.following();
    expected.is_last()
        && tiles.count == 3
        && expected.count == 768
        && (0..3).all(|t| has_tile(raster, tiles.get::<u32>(t) as usize, expected, 256 * t))
}

// Whether normalised values have the values of a list once they are equalised; invalid ones are 0.
fn are_equalised(raster: &Raster, expected: List<'_>) -> bool {
    let band = raster.band;
    let sides = raster.sides;
    let mut levels = [0u8; 4096];
    let Some(levels) = levels.get_mut(..band.db.len()) else {
        return false;
    };
    if sides.cols == 0 || !expected.is_last() || expected.count != band.db.len() {
        return false;
    }
    let mut work = [0.0; 16384];
    clahe::sums::write_tables(raster, UNIT, &mut work, levels);
    // Kept: by places. Each pixel needs its row and its column, so that rows of three lists, zipped and counted twice, are no plainer.
    for r in 0..sides.rows {
        for c in 0..sides.cols {
            let i = r * sides.cols + c;
            let found = if band.valid_mask[i] == 0 {
                0.0
            } else {
                equalised(&work, raster, r, c, band.db[i])
            };
            if !is_same(found, expected.get(i)) {
                return false;
            }
        }
    }
    true
}

// Whether a test holds of the raster of a record's values and marks, and of the list after them.
fn band_agrees<F: Fn(&Raster, List<'_>) -> bool>(record: Record<'_>, test: F) -> bool
    requires { F.IsAlwaysCallable test }
{
    let values = record.first();
    let marks = values.following();
    let mut db = [0.0; 4096];
    let db = &mut db[..values.count];
    read(values, db);
    let mut valid_mask = [0u8; 4096];
    let valid_mask = &mut valid_mask[..marks.count];
    read(marks, valid_mask);
    let Ok(raster) = Raster::new(record.sides(), db, valid_mask) else {
        return false;
    };
    test(&raster, marks.following())
}

// Whether three tiles of the record's band have the record's sums.
pub(crate) fn tiles_agree(record: Record<'_>) -> bool {
    band_agrees(record, have_tiles)
}

// Whether the pixels of the record's band have the record's values once they are equalised.
pub(crate) fn pixels_agree(record: Record<'_>) -> bool {
    band_agrees(record, are_equalised)
}
