// Where the strongest echo is: the place of the first valid maximum, kept by a first pass of its own.
ghost use Rattle.std.specs.Prelude.{◌≡◌, cond};
ghost use Rattle.raster.specs.Bands.{pixels_of};
ghost use Rattle.spec.specs.Strongest.{is_new_max, place_in};
ghost use Rattle.histogram.specs.Passes.{placed_pass};

use super::{moments, pass};
use raster::CountedBand;
use types::{Moments, Place};

// The place of the first maximum with one value more, which stands at i.
#[tactic(auto, unfolding(spec::specs::Strongest::is_new_max))]
fn place_met(m: Moments, at: usize, v: f64, i: usize) -> usize
    ensures { result ≡ cond (is_new_max m v) i at }
{
    if m.count == 0 || v > m.max_db { i } else { at }
}

// The first pass of the statistics call: it keeps the place too.
pub(crate) fn placed_pass(band: &CountedBand) -> Option<(Moments, usize)>
    ensures { result ≡ placed_pass (pixels_of band.now.pixels) }
{
    pass::gather_valid(
        &band.pixels,
        (moments::no_moments(), 0),
        |(m, at), v, i| (moments::with_value(m, v), place_met(m, at, v, i)),
    )
}

// A place of the raster as row and column.
#[tactic(auto, unfolding(spec::specs::Strongest::place_in))]
pub(crate) fn place_in(cols: usize, at: usize) -> Place
    ensures { result ≡ place_in cols at }
{
    if cols == 0 {
        Place { row: 0, col: 0 }
    } else {
        Place {
            row: at / cols,
            col: at % cols,
        }
    }
}
