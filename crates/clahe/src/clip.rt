// A tile's counts after clipping, by the source's float steps.
ghost use Rattle.std.specs.Prelude.{◌≡◌, ℕ, ◌+◌, ◌^◌, ◌<◌, ◌≤◌, T, map, if◌then◌else◌, nat_lt, slice_index};
ghost use Rattle.std.specs.Float.{binary64};
ghost use Rattle.std.specs.Float.Ieee.{add, sub, div, lt, le, to_unsigned};
ghost use Rattle.spec.specs.Floats.{zero64, of_count, round_as_u64};
ghost use Rattle.spec.specs.Lists.{sum_of};
ghost use Rattle.spec.specs.Clahe as Clahe;

use numeric::Binary;

// Kept: the casts by `as` here, of a usize or of a u64 to a u32, are those that no `From` covers.

// `f64 as u32`: the fraction dropped, held to the range, 0 for a NaN.
fn f64_as_u32(x: f64) -> u32
    ensures { result ≡ to_unsigned 32 x }
{
    u32::try_from(x.as_u64()).unwrap_or(u32::MAX)
}

// How many a bin of a tile of that many pixels may hold.
pub fn threshold(area: usize) -> f64
    requires { area ≤ 16777216 }
    ensures { result ≡ Clahe.threshold area }
{
    numeric::max_f64(2.0 * (area as f64 / 256.0), 1.0)
}

// What a bin has above the limit, the fraction kept.
fn above(size: f64, limit: f64) -> f64
    ensures { result ≡ sub binary64 size limit }
{
    size - limit
}

// The sum with what a bin has above the limit.
fn with_excess(sum: f64, h: u32, limit: f64) -> f64
    ensures { result ≡ (if lt limit (of_count h) then add binary64 sum (sub binary64 (of_count h) limit) else sum) }
{
    let size = f64::from(h);
    if size > limit {
        sum + above(size, limit)
    } else {
        sum
    }
}

// What all bins have above the limit.
fn excess(hist: &[u32; 256], limit: f64) -> f64
    ensures { result ≡ Clahe.excess limit zero64 hist.now }
{
    hist.iter().fold(0.0, |sum, h| with_excess(sum, *h, limit))
}

// A bin that holds more than the limit becomes the limit, without its fraction.
fn clipped(h: u32, limit: f64) -> u32
    ensures { result ≡ Clahe.clipped limit h }
{
    if f64::from(h) > limit {
        f64_as_u32(limit)
    } else {
        h
    }
}

// Each bin clipped.
fn clip_bins(hist: &mut [u32; 256], limit: f64)
    ensures { hist.new ≡ map (Clahe.clipped limit) hist.old }
{
    for h in hist.iter_mut() {
        *h = clipped(*h, limit);
    }
}

// What each bin gets of the excess.
fn each_of(over: f64) -> u64
    ensures { result ≡ to_unsigned 64 (div binary64 over Clahe.levels64) }
{
    (over / 256.0).as_u64()
}

// What is left of it, rounded.
fn rest_of(over: f64, given: f64) -> u64
    ensures { result ≡ round_as_u64 (sub binary64 over given) }
{
    (over - given).round_as_u64()
}

// A bin's share: `each`, and one more where the bin is among the first `rest`.
fn with_share(h: u32, b: u64, each: u32, rest: u64) -> u32
    requires { h + each + 1 < 2 ^ 32 }
    ensures { result ≡ h + each + (if nat_lt b rest then 1 else 0) }
{
    if b < rest { h + each + 1 } else { h + each }
}

// Each bin with its share.
fn share(hist: &mut [u32; 256], each: u32, rest: u64)
    requires { (k : ℕ) → slice_index hist.old k + each + 1 < 2 ^ 32 }
    ensures { hist.new ≡ Clahe.one_by_one rest (map (λ h. h + each) hist.old) }
{
    for (b, h) in hist.iter_mut().enumerate() {
        *h = with_share(*h, b as u64, each, rest);
    }
}

// A tile's counts after clipping at a limit.
pub fn clip_at(hist: &mut [u32; 256], limit: f64)
    requires { (sum_of hist.old < 2 ^ 31) × T (le zero64 limit) }
    ensures { hist.new ≡ Clahe.clip_at limit hist.old }
{
    let over = excess(hist, limit);
    let each = each_of(over);
    let rest = rest_of(over, std::num::nearest_u64_to_f64(each) * 256.0);
    clip_bins(hist, limit);
    share(hist, each as u32, rest);
}
