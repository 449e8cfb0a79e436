// The calls that are told which band is co-pol: the picture of two bands, and its windows.
ghost use Rattle.std.specs.Prelude.{◌≡◌};
ghost use Rattle.spec.specs.Answer.{number, after};
ghost use Rattle.spec.specs.Colour.{bytes_of};
ghost use Rattle.pipeline.specs.Work.{Kept};
ghost use Rattle.quicklook.specs.Calls as Calls;
ghost use Rattle.types.specs.Codes.{strategy_of};
ghost use Rattle.quicklook.specs.Codes.{uses_named};
ghost use Rattle.quicklook.specs.Numbers.{blank_mark, floats_or_zeros, blanks_of, floats_of_both};

use super::replies;
use types::{AutoscaleStrategy, CoPol, PictureChoices, SyntheticRgbMode, WindowFloats};

// The picture of two bands: two greys, then their colours. Under Tamed the chosen band counts as co-pol.
#[unsafe(no_mangle)]
pub extern "C" fn quicklook_picture_copol(
    strategy: u8,
    mode: u8,
    copol: u8,
    rows: usize,
    cols: usize,
    db1: &[f64],
    valid_mask1: &[u8],
    db2: &[f64],
    valid_mask2: &[u8],
    grey1: &mut [u8],
    grey2: &mut [u8],
    rgb: &mut [u8],
    work: &mut [f64],
) -> u8
    ensures reply { result ≡ number (Calls.picture_copol strategy mode copol rows cols valid_mask1.now db1.now valid_mask2.now db2.now grey1.old grey2.old rgb.old work.old) }
    ensures grey1 { grey1.new ≡ after (λ p. p.grey1) (Calls.picture_copol strategy mode copol rows cols valid_mask1.now db1.now valid_mask2.now db2.now grey1.old grey2.old rgb.old work.old) grey1.old }
    ensures grey2 { grey2.new ≡ after (λ p. p.grey2) (Calls.picture_copol strategy mode copol rows cols valid_mask1.now db1.now valid_mask2.now db2.now grey1.old grey2.old rgb.old work.old) grey2.old }
    ensures colours { rgb.new ≡ after (λ p. bytes_of p.colours) (Calls.picture_copol strategy mode copol rows cols valid_mask1.now db1.now valid_mask2.now db2.now grey1.old grey2.old rgb.old work.old) rgb.old }
    ensures work { Kept (uses_named (strategy_of strategy) (Calls.picture_copol strategy mode copol rows cols valid_mask1.now db1.now valid_mask2.now db2.now grey1.old grey2.old rgb.old work.old)) work.old work.new }
{
    let Ok(strategy) = AutoscaleStrategy::try_from(strategy) else {
        return 255;
    };
    let Ok(mode) = SyntheticRgbMode::try_from(mode) else {
        return 255;
    };
    let Ok(copol) = CoPol::try_from(copol) else {
        return 255;
    };
    let choices = PictureChoices {
        strategy,
        mode,
        copol,
    };
    replies::reply_number(pipeline::synthetic_rgb_picture_copol(
        rows,
        cols,
        choices,
        db1,
        valid_mask1,
        db2,
        valid_mask2,
        grey1,
        grey2,
        rgb,
        work,
    ))
}

// 1 for a blank window, else 0.
#[tactic(auto, unfolding(crate::specs::Numbers::blank_mark))]
fn blank_mark(window: Option<WindowFloats>) -> u8
    ensures { result ≡ blank_mark window }
{
    u8::from(window.is_none())
}

// A window's floats, zeros for a blank one.
#[tactic(auto, unfolding(crate::specs::Numbers::floats_or_zeros))]
fn floats_or_zeros(window: Option<WindowFloats>) -> WindowFloats
    ensures { result ≡ floats_or_zeros window }
{
    window.unwrap_or(WindowFloats {
        low: 0.0,
        high: 0.0,
        range: 0.0,
        gamma: 0.0,
    })
}

// Both windows into the lent numbers.
fn put_both(
    first: Option<WindowFloats>,
    second: Option<WindowFloats>,
    blank: &mut [u8; 2],
    floats: &mut [f64; 8],
)
    ensures { (blank.new ≡ blanks_of (record { first = first; second = second })) × (floats.new ≡ floats_of_both (record { first = first; second = second })) }
{
    let a = floats_or_zeros(first);
    let b = floats_or_zeros(second);
    *blank = [blank_mark(first), blank_mark(second)];
    *floats = [
        a.low, a.high, a.range, a.gamma, b.low, b.high, b.range, b.gamma,
    ];
}

// The windows that the picture of two bands is painted with.
#[unsafe(no_mangle)]
pub extern "C" fn quicklook_picture_windows(
    strategy: u8,
    copol: u8,
    rows: usize,
    cols: usize,
    db1: &[f64],
    valid_mask1: &[u8],
    db2: &[f64],
    valid_mask2: &[u8],
    blank: &mut [u8; 2],
    floats: &mut [f64; 8],
) -> u8
    ensures reply { result ≡ number (Calls.picture_windows strategy copol rows cols valid_mask1.now db1.now valid_mask2.now db2.now) }
    ensures blank { blank.new ≡ after blanks_of (Calls.picture_windows strategy copol rows cols valid_mask1.now db1.now valid_mask2.now db2.now) blank.old }
    ensures floats { floats.new ≡ after floats_of_both (Calls.picture_windows strategy copol rows cols valid_mask1.now db1.now valid_mask2.now db2.now) floats.old }
{
    let Ok(strategy) = AutoscaleStrategy::try_from(strategy) else {
        return 255;
    };
    let Ok(copol) = CoPol::try_from(copol) else {
        return 255;
    };
    match pipeline::synthetic_rgb_windows(
        rows,
        cols,
        strategy,
        copol,
        db1,
        valid_mask1,
        db2,
        valid_mask2,
    ) {
        Ok(windows) => {
            put_both(windows.first, windows.second, blank, floats);
            0
        }
        Err(refusal) => u8::from(refusal),
    }
}
