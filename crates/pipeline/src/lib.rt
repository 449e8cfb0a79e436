#![tactic(auto)]
// The calls that chain the parts: grey at 8 and at 16 bits, the picture of two bands and its windows.
// Kept: each call takes sides and lists apart, as C lends them; what it accepts is a `Raster` or a `Scene` from then on.
mod strategies; // strategies.rt: the strategies that stand apart
mod scene; // scene.rt: two bands of the same sides
mod rasters; // rasters.rt: the rasters of a call, and the refusals 1 to 3
mod windows; // windows.rt: the windows of a call's bands, and the refusals 4 to 6
mod bands; // bands.rt: the greys of one band from its window

ghost use Rattle.std.specs.Prelude.{◌≡◌};
ghost use Rattle.spec.specs.Answer.{number, reply_number, read, after};
ghost use Rattle.spec.specs.Colour.{bytes_of};
ghost use Rattle.spec.specs.Copol.{synthetic_rgb_windows};
ghost use Rattle.pipeline.specs.Answers.{answer_u8, answer_u16, answer_picture, answer_picture_copol};
ghost use Rattle.pipeline.specs.Work.{uses, Kept};

use types::{
    AutoscaleStrategy, CoPol, Lent, PictureChoices, PictureWindows, Refusal, Sides,
    SyntheticRgbMode,
};

// Grey of one band at 8 bits.
pub fn autoscale_db_image_to_u8(
    rows: usize,
    cols: usize,
    strategy: AutoscaleStrategy,
    db: &[f64],
    valid_mask: &[u8],
    out: &mut [u8],
    work: &mut [f64],
) -> Result<(), Refusal>
    ensures reply { reply_number result ≡ number (answer_u8 strategy rows cols valid_mask.now db.now out.old work.old) }
    ensures greys { out.new ≡ after (λ l. l) (answer_u8 strategy rows cols valid_mask.now db.now out.old work.old) out.old }
    ensures work { Kept (uses strategy (answer_u8 strategy rows cols valid_mask.now db.now out.old work.old)) work.old work.new }
{
    let sides = Sides { rows, cols };
    let raster = rasters::grey_raster(sides, strategy, db, valid_mask, out.len(), work.len())?;
    let window = windows::grey_window(&raster, strategy)?;
    bands::greys_u8(&raster, strategy, window, out, work);
    Ok(())
}

// Grey of one band at 16 bits: no stretch.
// Kept: a call for each depth. This one refuses a gamma and does not stretch, so that one over both would be told as much as it says.
pub fn autoscale_db_image_to_u16(
    rows: usize,
    cols: usize,
    strategy: AutoscaleStrategy,
    db: &[f64],
    valid_mask: &[u8],
    out: &mut [u16],
    work: &mut [f64],
) -> Result<(), Refusal>
    ensures reply { reply_number result ≡ number (answer_u16 strategy rows cols valid_mask.now db.now out.old work.old) }
    ensures greys { out.new ≡ after (λ l. l) (answer_u16 strategy rows cols valid_mask.now db.now out.old work.old) out.old }
    ensures work { Kept (uses strategy (answer_u16 strategy rows cols valid_mask.now db.now out.old work.old)) work.old work.new }
{
    let sides = Sides { rows, cols };
    let raster = rasters::grey_raster(sides, strategy, db, valid_mask, out.len(), work.len())?;
    let window = windows::grey_window_u16(&raster, strategy)?;
    bands::values_u16(&raster, strategy, window, out, work);
    Ok(())
}

// The picture of two bands: both windows first, then the greys, then the colours. Under Tamed the chosen band counts as co-pol.
pub fn synthetic_rgb_picture_copol(
    rows: usize,
    cols: usize,
    choices: PictureChoices,
    db1: &[f64],
    valid_mask1: &[u8],
    db2: &[f64],
    valid_mask2: &[u8],
    grey1: &mut [u8],
    grey2: &mut [u8],
    rgb: &mut [u8],
    work: &mut [f64],
) -> Result<(), Refusal>
    ensures reply { reply_number result ≡ number (answer_picture_copol choices rows cols valid_mask1.now db1.now valid_mask2.now db2.now grey1.old grey2.old rgb.old work.old) }
    ensures grey1 { grey1.new ≡ after (λ p. p.grey1) (answer_picture_copol choices rows cols valid_mask1.now db1.now valid_mask2.now db2.now grey1.old grey2.old rgb.old work.old) grey1.old }
    ensures grey2 { grey2.new ≡ after (λ p. p.grey2) (answer_picture_copol choices rows cols valid_mask1.now db1.now valid_mask2.now db2.now grey1.old grey2.old rgb.old work.old) grey2.old }
    ensures rgb { rgb.new ≡ after (λ p. bytes_of p.colours) (answer_picture_copol choices rows cols valid_mask1.now db1.now valid_mask2.now db2.now grey1.old grey2.old rgb.old work.old) rgb.old }
    ensures work { Kept (uses choices.strategy (answer_picture_copol choices rows cols valid_mask1.now db1.now valid_mask2.now db2.now grey1.old grey2.old rgb.old work.old)) work.old work.new }
{
    let lent = Lent {
        grey1: grey1.len(),
        grey2: grey2.len(),
        rgb: rgb.len(),
        work: work.len(),
    };
    let sides = Sides { rows, cols };
    let PictureChoices {
        strategy,
        mode,
        copol,
    } = choices;
    let scene = rasters::picture_rasters(
        sides,
        strategy,
        db1,
        valid_mask1,
        db2,
        valid_mask2,
        lent,
    )?;
    let windows = windows::picture_windows(&scene, strategy, copol)?;
    bands::picture_greys(&scene.first, strategy, windows.first, grey1, work);
    bands::picture_greys(&scene.second, strategy, windows.second, grey2, work);
    synthetic_rgb::compose_by_mode_and_strategy(mode, strategy, grey1, grey2, rgb);
    Ok(())
}

// The same with band 1 as co-pol, as document 01 has it.
pub fn synthetic_rgb_picture(
    rows: usize,
    cols: usize,
    strategy: AutoscaleStrategy,
    mode: SyntheticRgbMode,
    db1: &[f64],
    valid_mask1: &[u8],
    db2: &[f64],
    valid_mask2: &[u8],
    grey1: &mut [u8],
    grey2: &mut [u8],
    rgb: &mut [u8],
    work: &mut [f64],
) -> Result<(), Refusal>
    ensures reply { reply_number result ≡ number (answer_picture strategy mode rows cols valid_mask1.now db1.now valid_mask2.now db2.now grey1.old grey2.old rgb.old work.old) }
    ensures grey1 { grey1.new ≡ after (λ p. p.grey1) (answer_picture strategy mode rows cols valid_mask1.now db1.now valid_mask2.now db2.now grey1.old grey2.old rgb.old work.old) grey1.old }
    ensures grey2 { grey2.new ≡ after (λ p. p.grey2) (answer_picture strategy mode rows cols valid_mask1.now db1.now valid_mask2.now db2.now grey1.old grey2.old rgb.old work.old) grey2.old }
    ensures rgb { rgb.new ≡ after (λ p. bytes_of p.colours) (answer_picture strategy mode rows cols valid_mask1.now db1.now valid_mask2.now db2.now grey1.old grey2.old rgb.old work.old) rgb.old }
    ensures work { Kept (uses strategy (answer_picture strategy mode rows cols valid_mask1.now db1.now valid_mask2.now db2.now grey1.old grey2.old rgb.old work.old)) work.old work.new }
{
    let choices = PictureChoices {
        strategy,
        mode,
        copol: CoPol::Band1,
    };
    synthetic_rgb_picture_copol(
        rows,
        cols,
        choices,
        db1,
        valid_mask1,
        db2,
        valid_mask2,
        grey1,
        grey2,
        rgb,
        work,
    )
}

// The windows that a picture paints its two bands with.
pub fn synthetic_rgb_windows(
    rows: usize,
    cols: usize,
    strategy: AutoscaleStrategy,
    copol: CoPol,
    db1: &[f64],
    valid_mask1: &[u8],
    db2: &[f64],
    valid_mask2: &[u8],
) -> Result<PictureWindows, Refusal>
    ensures { read result ≡ synthetic_rgb_windows strategy copol rows cols valid_mask1.now db1.now valid_mask2.now db2.now }
{
    let sides = Sides { rows, cols };
    let scene = rasters::accepted_rasters(sides, db1, valid_mask1, db2, valid_mask2)?;
    windows::both_windows(&scene, strategy, copol)
}
