#![tactic(auto)]
// The refusals that any band can meet, each a test of one pass, and a raster: a band that has met the first of them.
mod accept; // accept.rt: which lists are a raster
mod band; // band.rt: a band, and a raster

ghost use Rattle.std.specs.Prelude.{◌≡◌};
ghost use Rattle.spec.specs.Lists.{highest};
ghost use Rattle.spec.specs.Pixels.{on};
ghost use Rattle.spec.specs.Refusals.{sides_refused, marks_refused, decibel_refused};

pub use band::{Band, CountedBand, Raster};

// 1: whether a side is above 4,096.
#[tactic(auto, unfolding(spec::specs::Refusals::sides_refused))]
fn sides_refused(rows: usize, cols: usize) -> bool
    ensures { result ≡ sides_refused rows cols }
{
    rows > 4096 || cols > 4096
}

// The greatest mark, 0 if there is none: a pass over all of them takes less time than one that may stop early.
fn greatest_mark(valid_mask: &[u8]) -> u8
    ensures { result ≡ highest 0 valid_mask.now }
{
    valid_mask
        .iter()
        .fold(0, |greatest, mark| greatest.max(*mark))
}

// 3: whether a mark is neither 0 nor 1.
pub fn marks_refused(valid_mask: &[u8]) -> bool
    ensures { result ≡ marks_refused valid_mask.now }
{
    greatest_mark(valid_mask) > 1
}

// Whether a dB is NaN, infinite, below -1000 or above 1000.
// Kept: two comparisons, since the search does not prove the contract of `!(-1000.0..=1000.0).contains(&v)`.
#[tactic(auto, unfolding(spec::specs::Refusals::decibel_refused))]
pub fn decibel_refused(v: f64) -> bool
    ensures { result ≡ decibel_refused (on v) }
{
    !(v >= -1000.0 && v <= 1000.0)
}
