// The values of pixels from the tiles' sums, row by row, each in place of its level.
ghost use Rattle.std.specs.Prelude.{◌≡◌, ℕ, ◌*◌, ◌<◌, ◌≤◌, ◌&&◌, T, map, length, slice_index_or};
ghost use Rattle.std.specs.Float.{nan};
ghost use Rattle.std.specs.Float.Ieee.{le};
ghost use Rattle.spec.specs.Floats.{zero64, one64};
ghost use Rattle.spec.specs.Gamma.{full_of};
ghost use Rattle.clahe.specs.Work.{ColumnAmong};
ghost use Rattle.clahe.specs.Within.{InUnit, Units};
ghost use Rattle.clahe.specs.Paint.{shade, shades, part_shades, columns_of, no_column};

use super::columns::{Column, interpolates, interpolating_from};
use super::held::held;
use super::sampling::{Row, row_at, sample, tile_position};
use super::tiles::tile_side;
use numeric::depth::Depth;
use raster::Raster;

// The value of a level at a row and a column. Sums and weights in 0.0..1.0 blend to one that is.
fn shade<D: Depth, const WITHIN: bool>(b: u8, row: &Row, x: Column) -> D
    requires among { ColumnAmong x }
    requires within { T WITHIN → Units row.now × InUnit row.now.weight × InUnit x.weight }
    ensures { result ≡ D.of (shade (full_of D.depth) row.now.top.now row.now.bottom.now row.now.weight x b) }
{
    let sum = held(sample(row, x, b), WITHIN);
    D::truncated(sum * D::full())
}

// A part of a row, each value in place of its level.
fn part_shades<D: Depth, const WITHIN: bool>(
    valid_mask: &[u8],
    row: &Row,
    columns: &[Column],
    out: &mut [D],
)
    requires sized { (length valid_mask.now ≡ length out.old) × (length columns.now ≡ length out.old) }
    requires among { (c : ℕ) → c < length columns.now → ColumnAmong (slice_index_or columns.now c no_column) }
    requires within { T WITHIN → (c : ℕ) → c < length columns.now → Units row.now × InUnit row.now.weight × InUnit (slice_index_or columns.now c no_column).weight }
    ensures { out.new ≡ map D.of (part_shades (full_of D.depth) row.now.top.now row.now.bottom.now row.now.weight valid_mask.now columns.now (map D.level out.old)) }
{
    for (c, value) in out.iter_mut().enumerate() {
        *value = if valid_mask[c] == 0 {
            D::black()
        } else {
            shade::<D, WITHIN>(value.level(), row, columns[c])
        };
    }
}

// A row, each value in place of its level, where no sum nor weight is outside 0.0..1.0 from a column on.
fn row_shades<D: Depth>(
    valid_mask: &[u8],
    row: &Row,
    columns: &[Column],
    from: usize,
    out: &mut [D],
)
    requires sized { (length valid_mask.now ≡ length out.old) × (length columns.now ≡ length out.old) × (from ≤ length out.old) }
    requires among { (c : ℕ) → c < length columns.now → ColumnAmong (slice_index_or columns.now c no_column) }
    requires within { (c : ℕ) → from ≤ c → c < length columns.now → Units row.now × InUnit row.now.weight × InUnit (slice_index_or columns.now c no_column).weight }
    ensures { out.new ≡ map D.of (part_shades (full_of D.depth) row.now.top.now row.now.bottom.now row.now.weight valid_mask.now columns.now (map D.level out.old)) }
{
    part_shades::<D, false>(&valid_mask[..from], row, &columns[..from], &mut out[..from]);
    part_shades::<D, true>(&valid_mask[from..], row, &columns[from..], &mut out[from..]);
}

// The column from which on nothing is held in a row of this weight, where the columns' weights are in 0.0..1.0 from `inner` on.
fn unheld_from(weight: f64, inner: usize, cols: usize) -> usize
    requires { inner ≤ cols }
    ensures end { result ≤ cols }
    ensures within { result < cols → InUnit weight × (inner ≤ result) }
    ensures first { T (le zero64 weight && le weight one64) → result ≡ inner }
{
    if interpolates(weight) { inner } else { cols }
}

// All rows, the position of each worked out before its columns. What lies past the middles of the first tiles is not held.
#[tactic(auto, using(crate::proofs::Painted::row_fits))]
pub(crate) fn shades<D: Depth>(
    raster: &Raster,
    work: &[f64; 16384],
    columns: &[Column],
    out: &mut [D],
)
    requires sized { length out.old ≡ raster.now.sides.rows * raster.now.sides.cols }
    requires units { (i : ℕ) → i < 16384 → InUnit (slice_index_or work.now i nan) }
    requires columns { columns.now ≡ columns_of raster.now.sides.cols }
    ensures { out.new ≡ map D.of (shades (full_of D.depth) work.now raster.now.sides.rows raster.now.sides.cols raster.now.band.valid_mask.now (map D.level out.old)) }
{
    let valid_mask = raster.band.valid_mask;
    let sides = raster.sides;
    let side = tile_side(sides.rows);
    let inner = interpolating_from(columns);
    // Kept: by places, since of a list that `chunks_mut` cuts up the library says how long it ends and not what stands in it.
    for r in 0..sides.rows {
        let row = row_at(work, tile_position(side, r));
        let from = unheld_from(row.weight, inner, sides.cols);
        let at = r * sides.cols;
        let end = at + sides.cols;
        row_shades(&valid_mask[at..end], &row, columns, from, &mut out[at..end]);
    }
}
