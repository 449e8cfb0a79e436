// Two runs of the picture call, on two bands and on the same bands swapped. "With bands and choice swapped, a done call's grey outputs swap."
ghost use Rattle.std.specs.Prelude.{◌≡◌, length};
ghost use Rattle.spec.specs.Answer.{reply_number};
ghost use Rattle.demands.specs.Copol.{other_band};

use crate::TwoRuns;
use types::{CoPol, PictureChoices, Refusal, Sides};

// The other of two bands.
fn other_band(copol: CoPol) -> CoPol
    ensures { result ≡ other_band copol }
{
    match copol {
        CoPol::Band1 => CoPol::Band2,
        CoPol::Band2 => CoPol::Band1,
    }
}

// Bands and choice swapped, and the lent greys' lengths with them: the same reply, and if done, the greys swapped.
fn swapped_picture(
    sides: Sides,
    choices: PictureChoices,
    db1: &[f64],
    valid_mask1: &[u8],
    db2: &[f64],
    valid_mask2: &[u8],
    grey1: &mut [u8],
    grey2: &mut [u8],
    rgb: &mut [u8],
    grey1_swapped: &mut [u8],
    grey2_swapped: &mut [u8],
    rgb_swapped: &mut [u8],
    work: &mut [f64],
) -> TwoRuns<Result<(), Refusal>>
    ensures picture { length grey1.old ≡ length grey2_swapped.old → length grey2.old ≡ length grey1_swapped.old → length rgb.old ≡ length rgb_swapped.old → (reply_number result.first ≡ reply_number result.second) × (reply_number result.first ≡ 0 → (grey1_swapped.new ≡ grey2.new) × (grey2_swapped.new ≡ grey1.new)) }
{
    let Sides { rows, cols } = sides;
    let first = pipeline::synthetic_rgb_picture_copol(
        rows,
        cols,
        choices,
        db1,
        valid_mask1,
        db2,
        valid_mask2,
        grey1,
        grey2,
        rgb,
        work,
    );
    let swapped = PictureChoices {
        copol: other_band(choices.copol),
        ..choices
    };
    let second = pipeline::synthetic_rgb_picture_copol(
        rows,
        cols,
        swapped,
        db2,
        valid_mask2,
        db1,
        valid_mask1,
        grey1_swapped,
        grey2_swapped,
        rgb_swapped,
        work,
    );
    TwoRuns { first, second }
}
