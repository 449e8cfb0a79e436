// Pass one: count, least and greatest, Welford's mean and m2, in raster order.
ghost use Rattle.std.specs.Prelude.{◌≡◌, ◌+◌, ◌<◌, ◌^◌, cond, ◌||◌};
ghost use Rattle.std.specs.Float.Ieee.{lt};
ghost use Rattle.spec.specs.Moments.{no_moments, with_value, is_flat};
ghost use Rattle.raster.specs.Bands.{pixels_of};
ghost use Rattle.histogram.specs.Extremes.{with_extreme};
ghost use Rattle.histogram.specs.Passes.{first_pass, extremes};

use super::pass;
use raster::CountedBand;
use types::Moments;

// Before the first value.
#[tactic(auto, unfolding(spec::specs::Moments::no_moments))]
pub(crate) fn no_moments() -> Moments
    ensures { result ≡ no_moments }
{
    Moments {
        count: 0,
        min_db: 0.0,
        max_db: 0.0,
        mean: 0.0,
        m2: 0.0,
    }
}

// The least with one value more: the first met stays among equals.
fn least_met(first: bool, least: f64, v: f64) -> f64
    ensures { result ≡ cond (first || lt v least) v least }
{
    if first || v < least { v } else { least }
}

// The greatest with one value more, likewise.
// Kept: least and greatest in two functions; one that takes the comparison is longer than both.
fn greatest_met(first: bool, greatest: f64, v: f64) -> f64
    ensures { result ≡ cond (first || lt greatest v) v greatest }
{
    if first || v > greatest { v } else { greatest }
}

// Count, least and greatest with one value more.
#[tactic(auto, unfolding(crate::specs::Extremes::with_extreme))]
fn with_extreme(m: Moments, v: f64) -> Moments
    requires { m.count + 1 < 2 ^ 32 }
    ensures { result ≡ with_extreme m v }
{
    let first = m.count == 0;
    Moments {
        count: m.count + 1,
        min_db: least_met(first, m.min_db, v),
        max_db: greatest_met(first, m.max_db, v),
        ..m
    }
}

// All moments with one value more.
#[tactic(auto, unfolding(spec::specs::Moments::with_value, crate::specs::Extremes::with_extreme))]
pub(crate) fn with_value(m: Moments, v: f64) -> Moments
    requires { m.count + 1 < 2 ^ 32 }
    ensures { result ≡ with_value m v }
{
    let next = with_extreme(m, v);
    let delta = v - m.mean;
    let mean = m.mean + delta / f64::from(next.count);
    let delta2 = v - mean;
    Moments {
        mean,
        m2: m.m2 + delta * delta2,
        ..next
    }
}

// "max - min < 2^-52".
#[tactic(auto, unfolding(spec::specs::Moments::is_flat, spec::specs::Moments::span_of))]
pub(crate) fn is_flat(m: Moments) -> bool
    ensures { result ≡ is_flat m }
{
    m.max_db - m.min_db < 2.220446049250313e-16
}

// The moments of the valid dB, unless one of them is refused.
pub fn first_pass(band: &CountedBand) -> Option<Moments>
    ensures { result ≡ first_pass (pixels_of band.now.pixels) }
{
    pass::gather_valid(&band.pixels, no_moments(), |m, v, _| with_value(m, v))
}

// The same with mean and m2 left at 0, for those who read neither.
pub fn extremes(band: &CountedBand) -> Option<Moments>
    ensures { result ≡ extremes (pixels_of band.now.pixels) }
{
    pass::gather_valid(&band.pixels, no_moments(), |m, v, _| with_extreme(m, v))
}
