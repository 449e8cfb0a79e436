// The calls that give colours.
ghost use Rattle.std.specs.Prelude.{◌≡◌};
ghost use Rattle.spec.specs.Answer.{number, after};
ghost use Rattle.spec.specs.Colour.{bytes_of};
ghost use Rattle.pipeline.specs.Work.{Kept};
ghost use Rattle.types.specs.Codes.{strategy_of};
ghost use Rattle.quicklook.specs.Codes.{uses_named};
ghost use Rattle.quicklook.specs.Calls as Calls;

use super::replies;
use types::{AutoscaleStrategy, SyntheticRgbMode};

// The colours of two grey bands.
#[unsafe(no_mangle)]
pub extern "C" fn quicklook_compose(
    mode: u8,
    strategy: u8,
    band1: &[u8],
    band2: &[u8],
    rgb: &mut [u8],
) -> u8
    ensures reply { result ≡ number (Calls.compose mode strategy band1.now band2.now rgb.old) }
    ensures colours { rgb.new ≡ after (λ l. l) (Calls.compose mode strategy band1.now band2.now rgb.old) rgb.old }
{
    let Ok(mode) = SyntheticRgbMode::try_from(mode) else {
        return 255;
    };
    let Ok(strategy) = AutoscaleStrategy::try_from(strategy) else {
        return 255;
    };
    replies::reply_number(synthetic_rgb::create_synthetic_rgb_by_mode_and_strategy(
        mode, strategy, band1, band2, rgb,
    ))
}

// The picture of two bands: two greys, then their colours. Band 1 counts as co-pol under Tamed.
#[unsafe(no_mangle)]
pub extern "C" fn quicklook_picture(
    strategy: u8,
    mode: u8,
    rows: usize,
    cols: usize,
    db1: &[f64],
    valid_mask1: &[u8],
    db2: &[f64],
    valid_mask2: &[u8],
    grey1: &mut [u8],
    grey2: &mut [u8],
    rgb: &mut [u8],
    work: &mut [f64],
) -> u8
    ensures reply { result ≡ number (Calls.picture strategy mode rows cols valid_mask1.now db1.now valid_mask2.now db2.now grey1.old grey2.old rgb.old work.old) }
    ensures grey1 { grey1.new ≡ after (λ p. p.grey1) (Calls.picture strategy mode rows cols valid_mask1.now db1.now valid_mask2.now db2.now grey1.old grey2.old rgb.old work.old) grey1.old }
    ensures grey2 { grey2.new ≡ after (λ p. p.grey2) (Calls.picture strategy mode rows cols valid_mask1.now db1.now valid_mask2.now db2.now grey1.old grey2.old rgb.old work.old) grey2.old }
    ensures colours { rgb.new ≡ after (λ p. bytes_of p.colours) (Calls.picture strategy mode rows cols valid_mask1.now db1.now valid_mask2.now db2.now grey1.old grey2.old rgb.old work.old) rgb.old }
    ensures work { Kept (uses_named (strategy_of strategy) (Calls.picture strategy mode rows cols valid_mask1.now db1.now valid_mask2.now db2.now grey1.old grey2.old rgb.old work.old)) work.old work.new }
{
    let Ok(strategy) = AutoscaleStrategy::try_from(strategy) else {
        return 255;
    };
    let Ok(mode) = SyntheticRgbMode::try_from(mode) else {
        return 255;
    };
    replies::reply_number(pipeline::synthetic_rgb_picture(
        rows,
        cols,
        strategy,
        mode,
        db1,
        valid_mask1,
        db2,
        valid_mask2,
        grey1,
        grey2,
        rgb,
        work,
    ))
}
