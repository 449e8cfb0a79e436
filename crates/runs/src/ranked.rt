// One run of each call that turns decibels into greys. "Nobody who compares two valid pixels of one band outside Clahe finds the larger decibel with
// the smaller grey."
ghost use Rattle.std.specs.Prelude.{◌≡◌};
ghost use Rattle.spec.specs.Answer.{reply_number};
ghost use Rattle.demands.specs.GreyOrder.{OutsideClahe, Ranked};

use types::{AutoscaleStrategy, PictureChoices, Refusal, Sides};

// The grey call at 8 bits: if done, greys in the order of the decibels.
fn ranked_grey_u8(
    sides: Sides,
    strategy: AutoscaleStrategy,
    db: &[f64],
    valid_mask: &[u8],
    out: &mut [u8],
    work: &mut [f64],
) -> Result<(), Refusal>
    ensures greys_u8 { OutsideClahe strategy → reply_number result ≡ 0 → Ranked valid_mask.now db.now out.new }
{
    pipeline::autoscale_db_image_to_u8(sides.rows, sides.cols, strategy, db, valid_mask, out, work)
}

// The grey call at 16 bits: if done, values in the order of the decibels.
fn ranked_grey_u16(
    sides: Sides,
    strategy: AutoscaleStrategy,
    db: &[f64],
    valid_mask: &[u8],
    out: &mut [u16],
    work: &mut [f64],
) -> Result<(), Refusal>
    ensures greys_u16 { OutsideClahe strategy → reply_number result ≡ 0 → Ranked valid_mask.now db.now out.new }
{
    pipeline::autoscale_db_image_to_u16(sides.rows, sides.cols, strategy, db, valid_mask, out, work)
}

// The picture call: if done, the greys of each band in the order of its decibels.
fn ranked_picture(
    sides: Sides,
    choices: PictureChoices,
    db1: &[f64],
    valid_mask1: &[u8],
    db2: &[f64],
    valid_mask2: &[u8],
    grey1: &mut [u8],
    grey2: &mut [u8],
    rgb: &mut [u8],
    work: &mut [f64],
) -> Result<(), Refusal>
    ensures picture { OutsideClahe choices.strategy → reply_number result ≡ 0 → Ranked valid_mask1.now db1.now grey1.new × Ranked valid_mask2.now db2.now grey2.new }
{
    pipeline::synthetic_rgb_picture_copol(
        sides.rows,
        sides.cols,
        choices,
        db1,
        valid_mask1,
        db2,
        valid_mask2,
        grey1,
        grey2,
        rgb,
        work,
    )
}
