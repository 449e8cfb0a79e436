// A percentile: the first bin whose running count exceeds the target, and the value at the target's rank in it.
ghost use Rattle.std.specs.Prelude.{◌≡◌, ◌<◌, ◌^◌};
ghost use Rattle.spec.specs.Percentile.{target_of, find_bin, value_at, flat_percentile, spread_percentile, estimate_percentile};

use super::moments;
use numeric::Binary;
use types::{BinRank, Moments, Percentile};

// "target = floor(p × count), at most count - 1"; 0 for no value.
#[tactic(auto, unfolding(spec::specs::Percentile::target_of))]
fn target_of(p: f64, count: u32) -> u64
    ensures { result ≡ target_of p count }
{
    let place = (p * f64::from(count)).as_u64();
    place.min(u64::from(count.saturating_sub(1)))
}

// "take the first bin whose running count exceeds the target": the last bin if none does.
fn find_bin(hist: &[u32; 4096], target: u64) -> BinRank
    requires { target < 2 ^ 32 }
    ensures { result ≡ find_bin target 0 0 hist.now }
{
    let mut bin: usize = 0;
    let mut before: u64 = 0;
    // Kept: a `loop` that yields bin and rank by `break`, as document 01 asks for it here; a `for` yields nothing.
    loop {
        let size = hist[bin];
        let next = before + u64::from(size);
        if target < next {
            break BinRank {
                bin,
                size,
                rank: target - before,
            };
        }
        if bin == 4095 {
            break BinRank {
                bin,
                size,
                rank: target - before,
            };
        }
        before = next;
        bin += 1;
    }
}

// "the value is (min + bin × width) + (w/h) × width".
#[tactic(auto, unfolding(spec::specs::Percentile::value_at))]
fn value_at(min_db: f64, bin_width: f64, found: BinRank) -> f64
    requires { (found.bin < 2 ^ 32) × (found.rank < 2 ^ 32) }
    ensures { result ≡ value_at min_db bin_width found }
{
    let bin = found.bin as u32;
    let within = found.rank as u32;
    let bin_start = min_db + f64::from(bin) * bin_width;
    let frac = f64::from(within) / f64::from(found.size);
    bin_start + frac * bin_width
}

// "median, p01 to p25 are min; p75 to p99 are max", in bin 0 at rank 0.
#[tactic(auto, unfolding(spec::specs::Percentile::flat_percentile))]
fn flat_percentile(m: Moments, p: f64) -> Percentile
    ensures { result ≡ flat_percentile m p }
{
    let value = if p > 0.5 { m.max_db } else { m.min_db };
    Percentile {
        value,
        bin: 0,
        rank: 0,
    }
}

// What was found in the bins, and its value.
#[tactic(auto, unfolding(spec::specs::Percentile::spread_percentile, spec::specs::Moments::span_of))]
fn spread_percentile(m: Moments, found: BinRank) -> Percentile
    requires { (found.bin < 2 ^ 32) × (found.rank < 2 ^ 32) }
    ensures { result ≡ spread_percentile m found }
{
    let min_db = m.min_db;
    let bin_width = (m.max_db - min_db) / 4096.0;
    Percentile {
        value: value_at(min_db, bin_width, found),
        bin: found.bin,
        rank: found.rank,
    }
}

// The percentile of fraction p of values with these moments and bins.
pub(crate) fn estimate_percentile(m: Moments, hist: &[u32; 4096], p: f64) -> Percentile
    ensures { result ≡ estimate_percentile m hist.now p }
{
    if moments::is_flat(m) {
        flat_percentile(m, p)
    } else {
        let target = target_of(p, m.count);
        let found = find_bin(hist, target);
        spread_percentile(m, found)
    }
}
