// Two runs of the picture call, on a scene and on a reordering of it. "Nobody who reorders a two band scene can recolour it."
ghost use Rattle.std.specs.Prelude.{◌≡◌, List, ℕ, length};
ghost use Rattle.spec.specs.Answer.{reply_number};
ghost use Rattle.spec.specs.Places.{moved};
ghost use Rattle.demands.specs.Reordering.{Reorders, moved_triples};
ghost use Rattle.runs.specs.Reordered.{MovedBand};

use crate::TwoRuns;
use types::{PictureChoices, Refusal, Sides};

// One order moves marks and decibels of both bands; lent lists of equal lengths. The same refusal, or both done: each grey and each colour is moved.
fn reordered_picture(
    sides: Sides,
    choices: PictureChoices,
    db1: &[f64],
    valid_mask1: &[u8],
    db2: &[f64],
    valid_mask2: &[u8],
    db1_moved: &[f64],
    valid_mask1_moved: &[u8],
    db2_moved: &[f64],
    valid_mask2_moved: &[u8],
    grey1: &mut [u8],
    grey2: &mut [u8],
    rgb: &mut [u8],
    grey1_moved: &mut [u8],
    grey2_moved: &mut [u8],
    rgb_moved: &mut [u8],
    work: &mut [f64],
) -> TwoRuns<Result<(), Refusal>>
    ensures picture { Reorders choices.strategy → (ps : List ℕ) → MovedBand ps valid_mask1.now db1.now valid_mask1_moved.now db1_moved.now → MovedBand ps valid_mask2.now db2.now valid_mask2_moved.now db2_moved.now → length grey1.old ≡ length grey1_moved.old → length grey2.old ≡ length grey2_moved.old → length rgb.old ≡ length rgb_moved.old → (reply_number result.first ≡ reply_number result.second) × (reply_number result.first ≡ 0 → (grey1_moved.new ≡ moved 0 ps grey1.new) × (grey2_moved.new ≡ moved 0 ps grey2.new) × (rgb_moved.new ≡ moved_triples ps rgb.new)) }
{
    let Sides { rows, cols } = sides;
    let first = pipeline::synthetic_rgb_picture_copol(
        rows,
        cols,
        choices,
        db1,
        valid_mask1,
        db2,
        valid_mask2,
        grey1,
        grey2,
        rgb,
        work,
    );
    let second = pipeline::synthetic_rgb_picture_copol(
        rows,
        cols,
        choices,
        db1_moved,
        valid_mask1_moved,
        db2_moved,
        valid_mask2_moved,
        grey1_moved,
        grey2_moved,
        rgb_moved,
        work,
    );
    TwoRuns { first, second }
}
