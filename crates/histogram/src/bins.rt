// The histogram of 4,096 bins.
ghost use Rattle.std.specs.Prelude.{◌≡◌, map, ℕ, ◌+◌, ◌<◌, ◌^◌, length, get_or, replicate};
ghost use Rattle.spec.specs.Bins.{bin_of, bins_of};
ghost use Rattle.spec.specs.Lists.{stored};
ghost use Rattle.spec.specs.Pixels.{valid_of};
ghost use Rattle.raster.specs.Bands.{pixels_of};

use super::moments;
use raster::{Band, CountedBand};
use types::Moments;

// The bin of a value: its place between least and greatest in 4,096ths, the fraction dropped.
fn bin_of(v: f64, min_db: f64, inv_span: f64) -> usize
    ensures { (result ≡ bin_of min_db inv_span v) × (result < 4096) }
{
    let t = numeric::clamp_f64((v - min_db) * inv_span, 0.0, 1.0);
    let bin = numeric::trunc_small(t * 4096.0);
    bin.min(4095) as usize
}

// Adds each valid value to its bin, to what the bins hold already.
fn fill_bins(band: &Band, min_db: f64, inv_span: f64, hist: &mut [u32; 4096])
    requires { (k : ℕ) → get_or hist.old k 0 + length band.now.db.now < 2 ^ 32 }
    ensures { hist.new ≡ stored hist.old (map (bin_of min_db inv_span) (valid_of (pixels_of band.now))) }
{
    let valid_mask = band.valid_mask;
    // Kept: by index. `zip` proves, but tests both ends at each pixel: the call for the bins takes 1.02 of the time, 1.07 with marks at random.
    for (i, v) in band.db.iter().enumerate() {
        if valid_mask[i] != 0 {
            hist[bin_of(*v, min_db, inv_span)] += 1;
        }
    }
}

// The counts of the valid values, in bins that are 0: all in bin 0 where the scene is flat.
pub(crate) fn count_bins(band: &CountedBand, m: Moments, hist: &mut [u32; 4096])
    requires { (hist.old ≡ replicate 4096 0) × (m.count ≡ length (valid_of (pixels_of band.now.pixels))) }
    ensures { hist.new ≡ bins_of m (valid_of (pixels_of band.now.pixels)) }
{
    if moments::is_flat(m) {
        hist[0] = m.count;
        return;
    }
    let min_db = m.min_db;
    let inv_span = 1.0 / (m.max_db - min_db);
    fill_bins(&band.pixels, min_db, inv_span, hist);
}
