// The calls on one band that answer numbers: its statistics, its curve and its window.
ghost use Rattle.std.specs.Prelude.{◌≡◌, length};
ghost use Rattle.spec.specs.Answer.{number, after};
ghost use Rattle.spec.specs.Curve.{compute_histogram};
ghost use Rattle.spec.specs.Statistics as Statistics;
ghost use Rattle.spec.specs.Window as Window;
ghost use Rattle.quicklook.specs.Calls as Calls;
ghost use Rattle.quicklook.specs.Numbers.{kept, whole_of, floats_of, blank_of, floats_of_window};

use super::replies;
use types::{AutoscaleStrategy, HistogramStats, WindowAnswer};

// The record's whole numbers and its floats, in its order.
fn put_statistics(stats: HistogramStats, whole: &mut [u64; 5], floats: &mut [f64; 15])
    ensures { (whole.new ≡ whole_of stats) × (floats.new ≡ floats_of stats) }
{
    *whole = [
        stats.valid_count as u64,
        stats.p05_bin as u64,
        stats.p95_bin as u64,
        stats.max_row as u64,
        stats.max_col as u64,
    ];
    *floats = [
        stats.min_db,
        stats.max_db,
        stats.mean_db,
        stats.std_db,
        stats.median_db,
        stats.p01,
        stats.p02,
        stats.p05,
        stats.p10,
        stats.p25,
        stats.p75,
        stats.p90,
        stats.p95,
        stats.p98,
        stats.p99,
    ];
}

// The count, the bins of p05 and p95, the place of the maximum, and the fifteen floats of a band.
#[unsafe(no_mangle)]
pub extern "C" fn quicklook_statistics(
    rows: usize,
    cols: usize,
    db: &[f64],
    valid_mask: &[u8],
    whole: &mut [u64; 5],
    floats: &mut [f64; 15],
) -> u8
    ensures reply { result ≡ number (Statistics.compute_histogram_stats rows cols valid_mask.now db.now) }
    ensures whole { whole.new ≡ after whole_of (Statistics.compute_histogram_stats rows cols valid_mask.now db.now) whole.old }
    ensures floats { floats.new ≡ after floats_of (Statistics.compute_histogram_stats rows cols valid_mask.now db.now) floats.old }
{
    match histogram::compute_histogram_stats(rows, cols, db, valid_mask) {
        Ok(stats) => {
            put_statistics(stats, whole, floats);
            0
        }
        Err(refusal) => u8::from(refusal),
    }
}

// The counts of a band's valid dB in 4,096 bins.
#[unsafe(no_mangle)]
pub extern "C" fn quicklook_histogram(
    rows: usize,
    cols: usize,
    db: &[f64],
    valid_mask: &[u8],
    counts: &mut [u32],
) -> u8
    ensures reply { result ≡ number (compute_histogram rows cols valid_mask.now db.now (length counts.old)) }
    ensures counts { counts.new ≡ after (λ l. l) (compute_histogram rows cols valid_mask.now db.now (length counts.old)) counts.old }
{
    replies::reply_number(histogram::compute_histogram(rows, cols, db, valid_mask, counts))
}

// A window's floats, or blank and zeros.
fn put_window(
    strategy: AutoscaleStrategy,
    rows: usize,
    cols: usize,
    db: &[f64],
    valid_mask: &[u8],
    blank: &mut u8,
    floats: &mut [f64; 4],
) -> u8
    ensures reply { result ≡ number (Window.autoscale_window strategy rows cols valid_mask.now db.now) }
    ensures blank { blank.new ≡ kept blank_of (Window.autoscale_window strategy rows cols valid_mask.now db.now) blank.old }
    ensures floats { floats.new ≡ after floats_of_window (Window.autoscale_window strategy rows cols valid_mask.now db.now) floats.old }
{
    match autoscale::autoscale_window(strategy, rows, cols, db, valid_mask) {
        WindowAnswer::Window {
            low,
            high,
            range,
            gamma,
        } => {
            *blank = 0;
            *floats = [low, high, range, gamma];
            0
        }
        WindowAnswer::Blank => {
            *blank = 1;
            *floats = [0.0, 0.0, 0.0, 0.0];
            0
        }
        WindowAnswer::Refused(k) => k,
    }
}

// The window of a band.
#[unsafe(no_mangle)]
pub extern "C" fn quicklook_window(
    strategy: u8,
    rows: usize,
    cols: usize,
    db: &[f64],
    valid_mask: &[u8],
    blank: &mut u8,
    floats: &mut [f64; 4],
) -> u8
    ensures reply { result ≡ number (Calls.window strategy rows cols valid_mask.now db.now) }
    ensures blank { blank.new ≡ kept blank_of (Calls.window strategy rows cols valid_mask.now db.now) blank.old }
    ensures floats { floats.new ≡ after floats_of_window (Calls.window strategy rows cols valid_mask.now db.now) floats.old }
{
    let Ok(strategy) = AutoscaleStrategy::try_from(strategy) else {
        return 255;
    };
    put_window(strategy, rows, cols, db, valid_mask, blank, floats)
}
