// The position of a row or a column among the tiles, the two rows of tiles around a row, and the sum there.
// Kept: `Among y` is a clause where a position is read; as a ghost field of `TilePosition` its proof would stand in spec/specs/Clahe, whose definition makes one.
ghost use Rattle.std.specs.Prelude.{◌≡◌, ◌<◌, ◌≤◌, length};
ghost use Rattle.std.specs.Float.{binary64};
ghost use Rattle.std.specs.Float.Ieee.{sub};
ghost use Rattle.clahe.specs.Work.{Among, ColumnAmong, tiles_row, sum_in, sampled};
ghost use Rattle.spec.specs.Clahe as Clahe;

use super::columns::Column;
use numeric::Binary;
use types::TilePosition;

// How far a position lies past the middle of its first tile: below 0 at the top and left edges.
fn past(position: f64, middle: f64) -> f64
    ensures { result ≡ sub binary64 position middle }
{
    position - middle
}

// Where row or column i lies among tiles of that side.
pub fn tile_position(side: usize, i: usize) -> TilePosition
    requires { (side ≤ 4096) × (i ≤ 4096) }
    ensures { result ≡ Clahe.tile_position side i }
{
    let position = i as f64 / side as f64 - 0.5;
    let k = position.as_u64();
    let first = k.min(7) as usize;
    let second = k.min(6) as usize + 1;
    TilePosition {
        position,
        first,
        second,
        weight: past(position, std::num::nearest_u64_to_f64(k)),
    }
}

// a at weight 0 and b at weight 1.
fn blend(weight: f64, a: f64, b: f64) -> f64
    ensures { result ≡ Clahe.blend weight a b }
{
    a * (1.0 - weight) + b * weight
}

// Where a row lies among the tiles: the sums of the two rows of tiles around it, and the weight of the second.
#[derive(Clone, Copy)]
pub struct Row<'a> {
    pub top: &'a [f64],
    pub bottom: &'a [f64],
    pub weight: f64,
    pub ghost long: { (length top.now ≡ 2048) × (length bottom.now ≡ 2048) },
}

// The sums of a row of tiles.
// Kept: the caller of the archive lends the work as one list, so the places are counted here.
fn tiles_row(work: &[f64; 16384], ty: usize) -> &[f64]
    requires { ty < 8 }
    ensures { result.now ≡ tiles_row work.now ty }
{
    let at = ty * 2048;
    let end = at + 2048;
    &work[at..end]
}

// The row at a position.
pub fn row_at(work: &[f64; 16384], y: TilePosition) -> Row<'_>
    requires { Among y }
    ensures { (result.top.now ≡ tiles_row work.now y.first) × (result.bottom.now ≡ tiles_row work.now y.second) × (result.weight ≡ y.weight) }
{
    Row {
        top: tiles_row(work, y.first),
        bottom: tiles_row(work, y.second),
        weight: y.weight,
    }
}

// The sum at bin b of the tile whose sums begin at a place of a row of tiles.
fn sum_in(tiles: &[f64], at: u32, b: u8) -> f64
    requires { (length tiles.now ≡ 2048) × (at ≤ 1792) }
    ensures { result ≡ sum_in tiles.now at b }
{
    tiles[at as usize + usize::from(b)]
}

// The sum at bin b, from the four tiles around.
pub fn sample(row: &Row, x: Column, b: u8) -> f64
    requires { ColumnAmong x }
    ensures { result ≡ sampled row.now.top.now row.now.bottom.now row.now.weight x b }
{
    let top = blend(
        x.weight,
        sum_in(row.top, x.first, b),
        sum_in(row.top, x.second, b),
    );
    let bottom = blend(
        x.weight,
        sum_in(row.bottom, x.first, b),
        sum_in(row.bottom, x.second, b),
    );
    blend(row.weight, top, bottom)
}
