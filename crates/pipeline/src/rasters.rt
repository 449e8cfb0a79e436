// The rasters of a call, and the refusals 1 to 3: what its lists and their lengths must be.
ghost use Rattle.std.specs.Prelude.{◌≡◌, ◌||◌, ◌∷◌, [], ◌*◌, IfOk};
ghost use Rattle.spec.specs.Answer.{first_of, reply_number};
ghost use Rattle.spec.specs.Refusals.{sides_refused, lengths_refused, unlike, work_refused, marks_refused};
ghost use Rattle.raster.specs.Bands.{Holds};
ghost use Rattle.pipeline.specs.Ready.{Ready, PictureReady};
ghost use Rattle.pipeline.specs.Scenes.{HoldsBoth};
ghost use Rattle.pipeline.specs.Windows.{lent_refused, picture_lengths_refused};

use crate::scene::Scene;
use crate::strategies;
use raster::Raster;
use types::{AutoscaleStrategy, Lent, Refusal, Sides};

// 2: whether Clahe's work is not 16,384 long.
#[tactic(auto, unfolding(spec::specs::Refusals::work_refused, spec::specs::Refusals::unlike))]
fn work_refused(strategy: AutoscaleStrategy, work: usize) -> bool
    ensures { result ≡ work_refused strategy work }
{
    strategies::is_clahe(strategy) && work != 16384
}

// The raster of a grey call, and the lengths of what is lent beside it.
#[tactic(auto, unfolding(spec::specs::Answer::reply_number, types::specs::Replies::refusal_number, spec::specs::Answer::first_of, spec::specs::Refusals::unlike))]
pub(crate) fn grey_raster<'a>(
    sides: Sides,
    strategy: AutoscaleStrategy,
    db: &'a [f64],
    valid_mask: &'a [u8],
    out: usize,
    work: usize,
) -> Result<Raster<'a>, Refusal>
    ensures reply { reply_number result ≡ first_of 1 (
        sides_refused sides.rows sides.cols
        ∷ (lengths_refused sides.rows sides.cols valid_mask.now db.now || unlike out (sides.rows * sides.cols) || work_refused strategy work)
        ∷ marks_refused valid_mask.now ∷ []) }
    ensures raster { IfOk result (λ raster. Holds sides valid_mask.now db.now raster × Ready strategy sides out work) }
{
    let raster = Raster::new(sides, db, valid_mask)?;
    if out != db.len() || work_refused(strategy, work) {
        return Err(Refusal::Lengths);
    }
    if raster::marks_refused(valid_mask) {
        return Err(Refusal::Marks);
    }
    Ok(raster)
}

// 3 of a picture.
fn either_marks_refused(valid_mask1: &[u8], valid_mask2: &[u8]) -> bool
    ensures { result ≡ (marks_refused valid_mask1.now || marks_refused valid_mask2.now) }
{
    raster::marks_refused(valid_mask1) || raster::marks_refused(valid_mask2)
}

// The rasters of two bands: refusals 1 and 2.
#[tactic(auto, unfolding(spec::specs::Answer::reply_number, types::specs::Replies::refusal_number, spec::specs::Answer::first_of, spec::specs::Refusals::unlike))]
fn both_rasters<'a>(
    sides: Sides,
    db1: &'a [f64],
    valid_mask1: &'a [u8],
    db2: &'a [f64],
    valid_mask2: &'a [u8],
) -> Result<Scene<'a>, Refusal>
    ensures reply { reply_number result ≡ first_of 1 (
        sides_refused sides.rows sides.cols
        ∷ (lengths_refused sides.rows sides.cols valid_mask1.now db1.now || lengths_refused sides.rows sides.cols valid_mask2.now db2.now) ∷ []) }
    ensures scene { IfOk result (HoldsBoth sides valid_mask1.now db1.now valid_mask2.now db2.now) }
{
    let first = Raster::new(sides, db1, valid_mask1)?;
    let second = Raster::new(sides, db2, valid_mask2)?;
    Ok(Scene { first, second })
}

// The same of marks that are 0 or 1: refusals 1 to 3.
#[tactic(auto, unfolding(spec::specs::Answer::reply_number, types::specs::Replies::refusal_number, spec::specs::Answer::first_of, spec::specs::Refusals::unlike))]
pub(crate) fn accepted_rasters<'a>(
    sides: Sides,
    db1: &'a [f64],
    valid_mask1: &'a [u8],
    db2: &'a [f64],
    valid_mask2: &'a [u8],
) -> Result<Scene<'a>, Refusal>
    ensures reply { reply_number result ≡ first_of 1 (
        sides_refused sides.rows sides.cols
        ∷ (lengths_refused sides.rows sides.cols valid_mask1.now db1.now || lengths_refused sides.rows sides.cols valid_mask2.now db2.now)
        ∷ (marks_refused valid_mask1.now || marks_refused valid_mask2.now) ∷ []) }
    ensures scene { IfOk result (HoldsBoth sides valid_mask1.now db1.now valid_mask2.now db2.now) }
{
    let scene = both_rasters(sides, db1, valid_mask1, db2, valid_mask2)?;
    if either_marks_refused(valid_mask1, valid_mask2) {
        return Err(Refusal::Marks);
    }
    Ok(scene)
}

// 2 of a picture whose bands are rasters: whether a lent length is not the one named.
#[tactic(auto, unfolding(spec::specs::Refusals::unlike))]
fn lent_refused(scene: &Scene, strategy: AutoscaleStrategy, lent: Lent) -> bool
    ensures { result ≡ lent_refused strategy (scene.now.first.sides.rows * scene.now.first.sides.cols) lent }
{
    let n = scene.first.band.db.len();
    lent.grey1 != n || lent.grey2 != n || lent.rgb != 3 * n || work_refused(strategy, lent.work)
}

// The rasters of a picture, and the lengths of what is lent beside them: refusals 1 to 3.
#[tactic(auto, unfolding(spec::specs::Answer::reply_number, types::specs::Replies::refusal_number, spec::specs::Answer::first_of, spec::specs::Refusals::unlike))]
pub(crate) fn picture_rasters<'a>(
    sides: Sides,
    strategy: AutoscaleStrategy,
    db1: &'a [f64],
    valid_mask1: &'a [u8],
    db2: &'a [f64],
    valid_mask2: &'a [u8],
    lent: Lent,
) -> Result<Scene<'a>, Refusal>
    ensures reply { reply_number result ≡ first_of 1 (
        sides_refused sides.rows sides.cols
        ∷ picture_lengths_refused strategy sides.rows sides.cols valid_mask1.now db1.now valid_mask2.now db2.now lent
        ∷ (marks_refused valid_mask1.now || marks_refused valid_mask2.now) ∷ []) }
    ensures scene { IfOk result (λ scene. HoldsBoth sides valid_mask1.now db1.now valid_mask2.now db2.now scene × PictureReady strategy sides lent) }
{
    let scene = both_rasters(sides, db1, valid_mask1, db2, valid_mask2)?;
    if lent_refused(&scene, strategy, lent) {
        return Err(Refusal::Lengths);
    }
    if either_marks_refused(valid_mask1, valid_mask2) {
        return Err(Refusal::Marks);
    }
    Ok(scene)
}
