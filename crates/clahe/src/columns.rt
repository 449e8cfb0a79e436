// The positions of all columns, worked out once a picture, and where their weights begin to be in 0.0..1.0.
ghost use Rattle.std.specs.Prelude.{◌≡◌, ℕ, ◌+◌, ◌<◌, ◌≤◌, false, ◌&&◌, length, slice_index_or};
ghost use Rattle.std.specs.Float.Ieee.{le};
ghost use Rattle.spec.specs.Floats.{zero64, one64};
ghost use Rattle.clahe.specs.Work.{Among};
ghost use Rattle.clahe.specs.Within.{InUnit};
ghost use Rattle.clahe.specs.Paint.{at_position, columns_of, no_column};

use super::sampling::tile_position;
use super::tiles::tile_side;
use types::TilePosition;

// Where the sums of a column's two tiles begin in a row of tiles, and the weight of the second.
// Kept: that both are among the eight is a clause where they are read; as a ghost field its proof would stand in specs/Paint, whose definitions make columns.
// Kept: u32, for the room of 4,096 columns on the stack; its casts by `as` are those that no `From` covers.
#[derive(Clone, Copy)]
pub struct Column {
    pub first: u32,
    pub second: u32,
    pub weight: f64,
}

// The column at a position.
pub fn column_at(p: TilePosition) -> Column
    requires { Among p }
    ensures { result ≡ at_position p }
{
    Column {
        first: p.first as u32 * 256,
        second: p.second as u32 * 256,
        weight: p.weight,
    }
}

// Writes the position of each column.
pub(crate) fn column_positions(columns: &mut [Column])
    requires { length columns.old ≤ 4096 }
    ensures { columns.new ≡ columns_of (length columns.old) }
{
    let side = tile_side(columns.len());
    for (c, column) in columns.iter_mut().enumerate() {
        let p = tile_position(side, c);
        *column = column_at(p);
    }
}

// Whether a weight is in 0.0..1.0, so that what it blends needs no holding to 0.0..1.0.
pub(crate) fn interpolates(weight: f64) -> bool
    ensures { result ≡ (le zero64 weight && le weight one64) }
{
    0.0 <= weight && weight <= 1.0
}

// The first column from which on all weights are in 0.0..1.0: those before it lie left of the middle of the first tile.
pub(crate) fn interpolating_from(columns: &[Column]) -> usize
    ensures end { result ≤ length columns.now }
    ensures within { (c : ℕ) → result ≤ c → c < length columns.now → InUnit (slice_index_or columns.now c no_column).weight }
    ensures first { (c : ℕ) → c + 1 ≡ result → (le zero64 (slice_index_or columns.now c no_column).weight && le (slice_index_or columns.now c no_column).weight one64) ≡ false }
{
    let mut from = 0;
    for (c, column) in columns.iter().enumerate() {
        if !interpolates(column.weight) {
            from = c + 1;
        }
    }
    from
}
