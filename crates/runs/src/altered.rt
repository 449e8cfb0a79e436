// Two runs of each call, on bands and on alterations of them. "Nobody who alters decibels under a 0 mark changes any result."
ghost use Rattle.std.specs.Prelude.{◌≡◌};
ghost use Rattle.spec.specs.Altered.{Altered};
ghost use Rattle.spec.specs.Answer.{reply_number};

use crate::TwoRuns;
use types::{
    AutoscaleStrategy, CoPol, HistogramStats, PictureChoices, PictureWindows, Refusal, Sides,
    WindowAnswer,
};

// The statistics call: the same refusal or the same record.
fn altered_statistics(
    sides: Sides,
    db: &[f64],
    db_altered: &[f64],
    valid_mask: &[u8],
) -> TwoRuns<Result<HistogramStats, Refusal>>
    ensures statistics { Altered valid_mask.now db.now db_altered.now → result.first ≡ result.second }
{
    let first = histogram::compute_histogram_stats(sides.rows, sides.cols, db, valid_mask);
    let second = histogram::compute_histogram_stats(sides.rows, sides.cols, db_altered, valid_mask);
    TwoRuns { first, second }
}

// The call for the bins: from equal lists the same reply and the same list.
fn altered_histogram(
    sides: Sides,
    db: &[f64],
    db_altered: &[f64],
    valid_mask: &[u8],
    hist: &mut [u32],
    hist_altered: &mut [u32],
) -> TwoRuns<Result<(), Refusal>>
    ensures counts { Altered valid_mask.now db.now db_altered.now → hist.old ≡ hist_altered.old → (reply_number result.first ≡ reply_number result.second) × (hist.new ≡ hist_altered.new) }
{
    let Sides { rows, cols } = sides;
    let first = histogram::compute_histogram(rows, cols, db, valid_mask, hist);
    let second = histogram::compute_histogram(rows, cols, db_altered, valid_mask, hist_altered);
    TwoRuns { first, second }
}

// The window call: the same refusal, blank, or the same floats.
fn altered_window(
    sides: Sides,
    strategy: AutoscaleStrategy,
    db: &[f64],
    db_altered: &[f64],
    valid_mask: &[u8],
) -> TwoRuns<WindowAnswer>
    ensures window { Altered valid_mask.now db.now db_altered.now → result.first ≡ result.second }
{
    let first = autoscale::autoscale_window(strategy, sides.rows, sides.cols, db, valid_mask);
    let second = autoscale::autoscale_window(
        strategy, sides.rows, sides.cols, db_altered, valid_mask,
    );
    TwoRuns { first, second }
}

// The grey call at 8 bits: from equal lists the same reply and the same list.
fn altered_grey_u8(
    sides: Sides,
    strategy: AutoscaleStrategy,
    db: &[f64],
    db_altered: &[f64],
    valid_mask: &[u8],
    out: &mut [u8],
    out_altered: &mut [u8],
    work: &mut [f64],
) -> TwoRuns<Result<(), Refusal>>
    ensures greys_u8 { Altered valid_mask.now db.now db_altered.now → out.old ≡ out_altered.old → (reply_number result.first ≡ reply_number result.second) × (out.new ≡ out_altered.new) }
{
    let Sides { rows, cols } = sides;
    let first = pipeline::autoscale_db_image_to_u8(rows, cols, strategy, db, valid_mask, out, work);
    let second = pipeline::autoscale_db_image_to_u8(
        rows,
        cols,
        strategy,
        db_altered,
        valid_mask,
        out_altered,
        work,
    );
    TwoRuns { first, second }
}

// The grey call at 16 bits: from equal lists the same reply and the same list.
fn altered_grey_u16(
    sides: Sides,
    strategy: AutoscaleStrategy,
    db: &[f64],
    db_altered: &[f64],
    valid_mask: &[u8],
    out: &mut [u16],
    out_altered: &mut [u16],
    work: &mut [f64],
) -> TwoRuns<Result<(), Refusal>>
    ensures greys_u16 { Altered valid_mask.now db.now db_altered.now → out.old ≡ out_altered.old → (reply_number result.first ≡ reply_number result.second) × (out.new ≡ out_altered.new) }
{
    let Sides { rows, cols } = sides;
    let first = pipeline::autoscale_db_image_to_u16(
        rows, cols, strategy, db, valid_mask, out, work,
    );
    let second = pipeline::autoscale_db_image_to_u16(
        rows,
        cols,
        strategy,
        db_altered,
        valid_mask,
        out_altered,
        work,
    );
    TwoRuns { first, second }
}

// The picture call, either band altered or both: from equal lists the same reply and the same lists.
fn altered_picture(
    sides: Sides,
    choices: PictureChoices,
    db1: &[f64],
    db1_altered: &[f64],
    valid_mask1: &[u8],
    db2: &[f64],
    db2_altered: &[f64],
    valid_mask2: &[u8],
    grey1: &mut [u8],
    grey1_altered: &mut [u8],
    grey2: &mut [u8],
    grey2_altered: &mut [u8],
    rgb: &mut [u8],
    rgb_altered: &mut [u8],
    work: &mut [f64],
) -> TwoRuns<Result<(), Refusal>>
    ensures picture { Altered valid_mask1.now db1.now db1_altered.now → Altered valid_mask2.now db2.now db2_altered.now → grey1.old ≡ grey1_altered.old → grey2.old ≡ grey2_altered.old → rgb.old ≡ rgb_altered.old → (reply_number result.first ≡ reply_number result.second) × (grey1.new ≡ grey1_altered.new) × (grey2.new ≡ grey2_altered.new) × (rgb.new ≡ rgb_altered.new) }
{
    let Sides { rows, cols } = sides;
    let first = pipeline::synthetic_rgb_picture_copol(
        rows,
        cols,
        choices,
        db1,
        valid_mask1,
        db2,
        valid_mask2,
        grey1,
        grey2,
        rgb,
        work,
    );
    let second = pipeline::synthetic_rgb_picture_copol(
        rows,
        cols,
        choices,
        db1_altered,
        valid_mask1,
        db2_altered,
        valid_mask2,
        grey1_altered,
        grey2_altered,
        rgb_altered,
        work,
    );
    TwoRuns { first, second }
}

// The windows of a picture, either band altered or both: the same refusal or the same windows.
fn altered_windows(
    sides: Sides,
    strategy: AutoscaleStrategy,
    copol: CoPol,
    db1: &[f64],
    db1_altered: &[f64],
    valid_mask1: &[u8],
    db2: &[f64],
    db2_altered: &[f64],
    valid_mask2: &[u8],
) -> TwoRuns<Result<PictureWindows, Refusal>>
    ensures windows { Altered valid_mask1.now db1.now db1_altered.now → Altered valid_mask2.now db2.now db2_altered.now → result.first ≡ result.second }
{
    let Sides { rows, cols } = sides;
    let first = pipeline::synthetic_rgb_windows(
        rows,
        cols,
        strategy,
        copol,
        db1,
        valid_mask1,
        db2,
        valid_mask2,
    );
    let second = pipeline::synthetic_rgb_windows(
        rows,
        cols,
        strategy,
        copol,
        db1_altered,
        valid_mask1,
        db2_altered,
        valid_mask2,
    );
    TwoRuns { first, second }
}
