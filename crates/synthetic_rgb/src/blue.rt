// Blue: the place of the ratio of red to green among thresholds, for one pixel and for every pair of bytes.
ghost use Rattle.std.specs.Prelude.{◌≡◌, cond, ◌+◌, ◌≤◌, ◌<◌, eqb, length};
ghost use Rattle.colour_tables.specs.Tables.{Rank};
ghost use Rattle.synthetic_rgb.specs.Palette.{Reached, Cells, epsilon, is_dark};

use crate::Composition;
use crate::palette::Palette;

// The place of r / g, from a place on that it reaches.
// Kept: a walk and no partition_point: in a row of the 65,536 cells each place is walked past once, where every cell would be a search of its own.
fn rank_from(thresholds: &[[u16; 2]], r: u64, g: u64, from: usize) -> usize
    requires { (r ≤ 263) × (g ≤ 263) × Reached thresholds.now r g from }
    ensures { Rank thresholds.now r g result }
{
    let last = thresholds.len() - 1;
    for k in from..last {
        let [n, d] = thresholds[k + 1];
        if u64::from(d) * r < u64::from(n) * g {
            return k;
        }
    }
    last
}

// Where the search for the place of a pair starts: at the place of the pair before it, which has the same green and no more red, or at 0 in a new row.
fn start(v1: usize, place: usize) -> usize
    ensures { result ≡ cond (eqb v1 0) 0 place }
{
    if v1 == 0 { 0 } else { place }
}

impl Composition {
    // What stabilizes the ratio.
    fn epsilon(self) -> u64
        ensures { (result ≡ epsilon self) × (result ≤ 8) }
    {
        match self {
            Composition::Plain => 0,
            Composition::Suppressed(_) => 8,
        }
    }

    // Whether a pixel has no blue whatever its ratio.
    fn is_dark(self, v1: u8, v2: u8) -> bool
        ensures { result ≡ is_dark self v1 v2 }
    {
        match self {
            Composition::Plain => v2 == 0,
            Composition::Suppressed(f) => v1 <= f && v2 <= f,
        }
    }

    // The blue of a pixel whose ratio stands at a place.
    pub(crate) fn blue_at(self, v1: u8, v2: u8, place: usize) -> u8
        requires { place < 256 }
        ensures { result ≡ cond (is_dark self v1 v2) 0 place }
    {
        if self.is_dark(v1, v2) { 0 } else { place as u8 }
    }
}

impl Palette {
    // The place of the ratio of a red and a green, from a place on that it reaches.
    pub(crate) fn place_from(&self, red: u8, green: u8, from: usize) -> usize
        requires { Reached self.now.tables.thresholds.now (red + epsilon self.now.kind) (green + epsilon self.now.kind) from }
        ensures { Rank self.now.tables.thresholds.now (red + epsilon self.now.kind) (green + epsilon self.now.kind) result }
    {
        let eps = self.kind.epsilon();
        rank_from(
            self.tables.thresholds,
            u64::from(red) + eps,
            u64::from(green) + eps,
            from,
        )
    }

    // The blue of every pair of bytes.
    pub(crate) fn blue_cells(&self, cells: &mut [u8; 65536])
        ensures { Cells self.now.kind cells.new }
    {
        let mut place: usize = 0;
        for (i, cell) in cells.iter_mut().enumerate() {
            let v1 = i % 256;
            let v2 = i / 256;
            let from = start(v1, place);
            place = self.place_from(self.tables.red[v1], self.tables.green[v2], from);
            *cell = self.kind.blue_at(v1 as u8, v2 as u8, place);
        }
    }
}
