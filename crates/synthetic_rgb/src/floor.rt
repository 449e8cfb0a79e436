// The floor of the suppressed colours: the level that a twentieth of both bands' bytes reach, with a cushion, held to 40.
ghost use Rattle.std.specs.Prelude.{◌≡◌, ◌++◌, ℕ, ◌+◌, ◌≤◌, min, length, get_or};
ghost use Rattle.spec.specs.Lists.{counts, stored};
ghost use Rattle.spec.specs.Colour.{first_level, floor_level};

use crate::bands::Bands;

// Adds each byte of a band to the count of its level.
fn count_levels(band: &[u8], histogram: &mut [u32; 256])
    requires { (length band.now ≤ 16777216) × ((k : ℕ) → get_or histogram.old k 0 ≤ 16777216) }
    ensures { histogram.new ≡ stored histogram.old band.now }
{
    for v in band {
        histogram[usize::from(*v)] += 1;
    }
}

// The first level whose running count reaches the target.
fn first_level(histogram: &[u32; 256], target: u64) -> usize
    ensures { (result ≡ first_level target 0 0 histogram.now) × (result ≤ 255) }
{
    let mut reached: u64 = 0;
    for (level, count) in histogram.iter().enumerate() {
        reached += u64::from(*count);
        if target <= reached {
            return level;
        }
    }
    // Never met: the counts sum to the total.
    0
}

// The level held to at most 40 after a cushion of 3.
fn cushioned(level: usize) -> u8
    requires { level ≤ 255 }
    ensures { result ≡ min (level + 3) 40 }
{
    (level + 3).min(40) as u8
}

// The counts of both bands' levels.
// Kept: two slices and no &Bands: of a struct that is lent the proof lacks that each number is below 256, which the counts need.
fn count_both(band1_data: &[u8], band2_data: &[u8]) -> [u32; 256]
    requires { (length band1_data.now ≤ 16777216) × (length band2_data.now ≤ 16777216) }
    ensures { result ≡ counts 256 (band1_data.now ++ band2_data.now) }
{
    let mut histogram = [0u32; 256];
    count_levels(band1_data, &mut histogram);
    count_levels(band2_data, &mut histogram);
    histogram
}

// The floor of two bands.
pub(crate) fn floor_level(bands: &Bands) -> u8
    ensures { result ≡ floor_level bands.now.first.now bands.now.second.now }
{
    let histogram = count_both(bands.first, bands.second);
    let total = bands.first.len() as u64 + bands.second.len() as u64;
    let target = (total + 10) / 20;
    cushioned(first_level(&histogram, target))
}
