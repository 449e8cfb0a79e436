#![tactic(auto)]
// The statistics of a band: pass one, the bins, the percentiles, the record, and the calls for statistics and for the bins.
ghost use Rattle.std.specs.Prelude.{◌≡◌, ◌||◌, ◌∷◌, [], length, IfOk};
ghost use Rattle.spec.specs.Answer.{number, reply_number, read, first_of, after};
ghost use Rattle.spec.specs.Curve.{compute_histogram};
ghost use Rattle.spec.specs.Pixels.{valid_of};
ghost use Rattle.spec.specs.Refusals.{sides_refused, lengths_refused, unlike, marks_refused};
ghost use Rattle.spec.specs.Percentile.{estimate_percentile};
ghost use Rattle.spec.specs.Statistics.{deviation_of, gathered, summary, compute_histogram_stats};
ghost use Rattle.raster.specs.Bands.{pixels_of};

use raster::{CountedBand, Raster};
use types::{HistogramStats, Moments, Place, Refusal, Sides};

mod bins;
pub mod moments;
mod pass;
mod percentile;
mod place;

// "deviation = root of m2/count, 0 for count 1".
#[tactic(auto, unfolding(spec::specs::Statistics::deviation_of))]
fn deviation_of(m: Moments) -> f64
    ensures { result ≡ deviation_of m }
{
    if m.count > 1 {
        numeric::sqrt_f64(m.m2 / f64::from(m.count))
    } else {
        0.0
    }
}

// The record from moments and bins.
#[tactic(auto, unfolding(spec::specs::Statistics::gathered))]
fn stats_from_bins(m: Moments, place: Place, hist: &[u32; 4096]) -> HistogramStats
    ensures { result ≡ gathered m place (estimate_percentile m hist.now) }
{
    let at = |p| percentile::estimate_percentile(m, hist, p);
    let p05 = at(0.05);
    let p95 = at(0.95);
    HistogramStats {
        valid_count: m.count as usize,
        min_db: m.min_db,
        max_db: m.max_db,
        mean_db: m.mean,
        std_db: deviation_of(m),
        median_db: at(0.5).value,
        p01: at(0.01).value,
        p02: at(0.02).value,
        p05: p05.value,
        p10: at(0.10).value,
        p25: at(0.25).value,
        p75: at(0.75).value,
        p90: at(0.90).value,
        p95: p95.value,
        p98: at(0.98).value,
        p99: at(0.99).value,
        p05_bin: p05.bin,
        p95_bin: p95.bin,
        max_row: place.row,
        max_col: place.col,
    }
}

// The record of a band whose moments are known, and the place of its maximum; nothing is refused here.
pub fn summary(band: &CountedBand, m: Moments, place: Place) -> HistogramStats
    requires { m.count ≡ length (valid_of (pixels_of band.now.pixels)) }
    ensures { result ≡ summary m place (valid_of (pixels_of band.now.pixels)) }
{
    let mut hist: [u32; 4096] = [0; 4096];
    bins::count_bins(band, m, &mut hist);
    stats_from_bins(m, place, &hist)
}

// The statistics call: refusals 1 to 4, then the record.
// Kept: here and below sides and lists apart, as C lends them: what holds of them is tested here.
pub fn compute_histogram_stats(
    rows: usize,
    cols: usize,
    db: &[f64],
    valid_mask: &[u8],
) -> Result<HistogramStats, Refusal>
    ensures { read result ≡ compute_histogram_stats rows cols valid_mask.now db.now }
{
    let raster = Raster::accepted(Sides { rows, cols }, db, valid_mask)?;
    let band = raster.counted();
    let Some((m, at)) = place::placed_pass(&band) else {
        return Err(Refusal::Decibels);
    };
    Ok(summary(&band, m, place::place_in(cols, at)))
}

// The raster of the call for the bins, whose list is `out` long: refusals 1 to 3.
#[tactic(auto, unfolding(spec::specs::Answer::reply_number, types::specs::Replies::refusal_number, spec::specs::Answer::first_of, spec::specs::Refusals::unlike))]
fn bins_raster<'a>(
    sides: Sides,
    db: &'a [f64],
    valid_mask: &'a [u8],
    out: usize,
) -> Result<Raster<'a>, Refusal>
    ensures reply { reply_number result ≡ first_of 1 (
        sides_refused sides.rows sides.cols ∷ (lengths_refused sides.rows sides.cols valid_mask.now db.now || unlike out 4096)
        ∷ marks_refused valid_mask.now ∷ []) }
    ensures raster { IfOk result (λ raster. (raster.band.db.now ≡ db.now) × (raster.band.valid_mask.now ≡ valid_mask.now) × (out ≡ 4096)) }
{
    let raster = Raster::new(sides, db, valid_mask)?;
    if out != 4096 {
        return Err(Refusal::Lengths);
    }
    if raster::marks_refused(valid_mask) {
        return Err(Refusal::Marks);
    }
    Ok(raster)
}

// The call for the bins, 4,096 counts of the valid dB between the least and the greatest: refusals 1 to 4, then the counts.
pub fn compute_histogram(
    rows: usize,
    cols: usize,
    db: &[f64],
    valid_mask: &[u8],
    hist: &mut [u32],
) -> Result<(), Refusal>
    ensures result_value { reply_number result ≡ number (compute_histogram rows cols valid_mask.now db.now (length hist.old)) }
    ensures hist_after { hist.new ≡ after (λ l. l) (compute_histogram rows cols valid_mask.now db.now (length hist.old)) hist.old }
{
    let raster = bins_raster(Sides { rows, cols }, db, valid_mask, hist.len())?;
    let band = raster.counted();
    let Some(m) = moments::extremes(&band) else {
        return Err(Refusal::Decibels);
    };
    hist.fill(0);
    // The bins as an array, so that no contract below says their length. By the raster they always are one.
    let Some(hist) = hist.as_mut_array::<4096>() else {
        return Err(Refusal::Lengths);
    };
    bins::count_bins(&band, m, hist);
    Ok(())
}
