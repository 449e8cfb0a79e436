// The window of a band from its dB and marks. Mean and deviation are worked out only for the strategy that reads them, the place of the maximum for none.
ghost use Rattle.std.specs.Prelude.{◌≡◌, cond};
ghost use Rattle.raster.specs.Bands.{pixels_of};
ghost use Rattle.histogram.specs.Passes.{first_pass, extremes};
ghost use Rattle.autoscale.specs.Bands.{reads_mean, band_stats, band_window, band_picture_window};

use raster::CountedBand;
use types::{AutoscaleStrategy, HistogramStats, Moments, Place, Refusal, WindowFloats};

fn reads_mean(strategy: AutoscaleStrategy) -> bool
    ensures { result ≡ reads_mean strategy }
{
    matches!(strategy, AutoscaleStrategy::Adaptive)
}

// Pass one, as far as the strategy reads it.
fn strategy_pass(strategy: AutoscaleStrategy, band: &CountedBand) -> Option<Moments>
    ensures { result ≡ cond (reads_mean strategy) (first_pass (pixels_of band.now.pixels)) (extremes (pixels_of band.now.pixels)) }
{
    if reads_mean(strategy) {
        histogram::moments::first_pass(band)
    } else {
        histogram::moments::extremes(band)
    }
}

// The statistics that the strategy reads, of a band whose marks are accepted.
fn band_stats(strategy: AutoscaleStrategy, band: &CountedBand) -> Result<HistogramStats, Refusal>
    ensures { result ≡ band_stats strategy (pixels_of band.now.pixels) }
{
    let Some(m) = strategy_pass(strategy, band) else {
        return Err(Refusal::Decibels);
    };
    Ok(histogram::summary(band, m, Place { row: 0, col: 0 }))
}

// The window of such a band.
pub fn band_window(
    strategy: AutoscaleStrategy,
    band: &CountedBand,
) -> Result<Option<WindowFloats>, Refusal>
    ensures { result ≡ band_window strategy (pixels_of band.now.pixels) }
{
    let stats = band_stats(strategy, band)?;
    Ok(crate::window_of(strategy, stats))
}

// The window that a picture paints such a band with.
pub fn band_picture_window(
    strategy: AutoscaleStrategy,
    is_copol: bool,
    band: &CountedBand,
) -> Result<Option<WindowFloats>, Refusal>
    ensures { result ≡ band_picture_window strategy is_copol (pixels_of band.now.pixels) }
{
    let stats = band_stats(strategy, band)?;
    Ok(crate::picture_window(strategy, is_copol, stats))
}
