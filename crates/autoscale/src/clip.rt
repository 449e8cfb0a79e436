// What each strategy decides from the statistics: low, high and gamma, each float step in the source's order.
ghost use Rattle.std.specs.Prelude.{◌≡◌};
ghost use Rattle.spec.specs.Window as Window;

use numeric::Binary;
use types::{AutoscaleStrategy, Clip, HistogramStats};

fn between(low: f64, high: f64, gamma: f64) -> Clip
    ensures { result ≡ Window.between low high gamma }
{
    Clip { low, high, gamma }
}

// Low at least the least value, high at most the greatest.
#[tactic(auto, unfolding(spec::specs::Window::valid_range))]
fn valid_range(stats: HistogramStats, low: f64, high: f64, gamma: f64) -> Clip
    ensures { result ≡ Window.valid_range stats low high gamma }
{
    Clip {
        low: numeric::max_f64(low, stats.min_db),
        high: numeric::min_f64(high, stats.max_db),
        gamma,
    }
}

// Standard, low contrast: around the median.
#[tactic(auto, unfolding(spec::specs::Window::low_contrast_clip))]
fn low_contrast_clip(stats: HistogramStats, dynamic_range: f64) -> Clip
    ensures { result ≡ Window.low_contrast_clip stats dynamic_range }
{
    let range = numeric::max_f64(20.0, dynamic_range * 0.8);
    valid_range(
        stats,
        stats.median_db - range / 2.0,
        stats.median_db + range / 2.0,
        1.1,
    )
}

// Standard, heavy-tailed: by the interquartile range.
#[tactic(auto, unfolding(spec::specs::Window::heavy_tailed_clip, spec::specs::Window::outlier))]
fn heavy_tailed_clip(stats: HistogramStats, iqr: f64) -> Clip
    ensures { result ≡ Window.heavy_tailed_clip stats iqr }
{
    valid_range(stats, stats.p25 - 2.5 * iqr, stats.p75 + 2.5 * iqr, 1.0)
}

// Standard, high dynamic range: at least 0.02 of it within the ends.
#[tactic(auto, unfolding(spec::specs::Window::high_range_clip))]
fn high_range_clip(stats: HistogramStats, dynamic_range: f64) -> Clip
    ensures { result ≡ Window.high_range_clip stats dynamic_range }
{
    let clip_low = numeric::max_f64(stats.p02, stats.min_db + 0.02 * dynamic_range);
    let clip_high = numeric::min_f64(stats.p98, stats.max_db - 0.02 * dynamic_range);
    valid_range(stats, clip_low, clip_high, 0.9)
}

// Standard, normal.
#[tactic(auto, unfolding(spec::specs::Window::normal_clip))]
fn normal_clip(stats: HistogramStats) -> Clip
    ensures { result ≡ Window.normal_clip stats }
{
    valid_range(stats, stats.p02, stats.p98, 1.0)
}

// Standard, as `autoscale_db_image` decides it.
#[tactic(auto, unfolding(spec::specs::Window::standard_clip))]
fn standard_clip(stats: HistogramStats) -> Clip
    ensures { result ≡ Window.standard_clip stats }
{
    let dynamic_range = stats.max_db - stats.min_db;
    let iqr = stats.p75 - stats.p25;
    if dynamic_range < 15.0 {
        low_contrast_clip(stats, dynamic_range)
    } else if iqr < 5.0 {
        heavy_tailed_clip(stats, iqr)
    } else if dynamic_range > 40.0 {
        high_range_clip(stats, dynamic_range)
    } else {
        normal_clip(stats)
    }
}

#[tactic(auto, unfolding(spec::specs::Window::robust_clip, spec::specs::Window::outlier, spec::specs::Window::valid_range))]
fn robust_clip(stats: HistogramStats) -> Clip
    ensures { result ≡ Window.robust_clip stats }
{
    let iqr = stats.p75 - stats.p25;
    let outlier_threshold = 2.5 * iqr;
    let low = numeric::max_f64(stats.p25 - outlier_threshold, stats.p01);
    let high = numeric::min_f64(stats.p75 + outlier_threshold, stats.p99);
    valid_range(stats, low, high, 1.0)
}

#[tactic(auto, unfolding(spec::specs::Window::skew_factor))]
fn skew_factor(stats: HistogramStats) -> f64
    ensures { result ≡ Window.skew_factor stats }
{
    (stats.mean_db - stats.median_db) / numeric::max_f64(Binary::abs(stats.std_db), 1.0)
}

#[tactic(auto, unfolding(spec::specs::Window::tail_heaviness))]
fn tail_heaviness(stats: HistogramStats) -> f64
    ensures { result ≡ Window.tail_heaviness stats }
{
    (stats.p99 - stats.p95) / numeric::max_f64(stats.p95 - stats.p75, 1.0)
}

// By skew, then by tail.
#[tactic(auto, unfolding(spec::specs::Window::adaptive_clip))]
fn adaptive_clip(stats: HistogramStats) -> Clip
    ensures { result ≡ Window.adaptive_clip stats }
{
    let skew = skew_factor(stats);
    if Binary::abs(skew) > 0.5 {
        if skew > 0.0 {
            between(stats.p02, stats.p98, 0.9)
        } else {
            between(stats.p05, stats.p95, 1.1)
        }
    } else if tail_heaviness(stats) > 2.0 {
        between(stats.p10, stats.p90, 0.8)
    } else {
        between(stats.p05, stats.p95, 1.0)
    }
}

// What a strategy decides for the window and grey calls.
#[tactic(auto, unfolding(spec::specs::Window::choose_clip))]
pub(crate) fn choose_clip(strategy: AutoscaleStrategy, stats: HistogramStats) -> Clip
    ensures { result ≡ Window.choose_clip strategy stats }
{
    match strategy {
        AutoscaleStrategy::Standard => standard_clip(stats),
        AutoscaleStrategy::Robust => robust_clip(stats),
        AutoscaleStrategy::Adaptive => adaptive_clip(stats),
        AutoscaleStrategy::Equalized | AutoscaleStrategy::Clahe => {
            between(stats.p01, stats.p99, 1.0)
        },
        AutoscaleStrategy::Tamed => between(stats.p25, stats.p99, 1.0),
        AutoscaleStrategy::Default => between(stats.p05, stats.p95, 1.0),
    }
}

// Tamed on the picture path, as `autoscale_db_image_tamed_synrgb_u8` decides it.
#[tactic(auto, unfolding(spec::specs::Window::tamed_clip))]
fn tamed_clip(is_copol: bool, stats: HistogramStats) -> Clip
    ensures { result ≡ Window.tamed_clip is_copol stats }
{
    if is_copol {
        between(numeric::min_f64(stats.p02, stats.p05), stats.p99, 1.0)
    } else {
        between(stats.p05, stats.p99, 1.0)
    }
}

// What a strategy decides for a picture.
pub(crate) fn picture_clip(
    strategy: AutoscaleStrategy,
    is_copol: bool,
    stats: HistogramStats,
) -> Clip
    ensures { result ≡ Window.picture_clip strategy is_copol stats }
{
    match strategy {
        AutoscaleStrategy::Tamed => tamed_clip(is_copol, stats),
        _ => choose_clip(strategy, stats),
    }
}
