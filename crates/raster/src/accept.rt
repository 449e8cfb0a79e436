// Which lists are a raster: the refusals that judge them.
ghost use Rattle.std.specs.Prelude.{◌≡◌, ◌∷◌, [], IfOk};
ghost use Rattle.spec.specs.Answer.{first_of, reply_number};
ghost use Rattle.spec.specs.Refusals.{sides_refused, lengths_refused, marks_refused};
ghost use Rattle.raster.specs.Bands.{Holds};

use crate::{Band, Raster};
use types::{Refusal, Sides};

impl<'a> Raster<'a> {
    // Both lists as a raster of these sides: refusals 1 and 2.
    #[tactic(auto, unfolding(spec::specs::Answer::reply_number, types::specs::Replies::refusal_number, spec::specs::Answer::first_of, spec::specs::Refusals::sides_refused, spec::specs::Refusals::lengths_refused, spec::specs::Refusals::unlike))]
    pub fn new(sides: Sides, db: &'a [f64], valid_mask: &'a [u8]) -> Result<Raster<'a>, Refusal>
        ensures reply { reply_number result ≡ first_of 1 (sides_refused sides.rows sides.cols ∷ lengths_refused sides.rows sides.cols valid_mask.now db.now ∷ []) }
        ensures raster { IfOk result (Holds sides valid_mask.now db.now) }
    {
        if crate::sides_refused(sides.rows, sides.cols) {
            return Err(Refusal::Sides);
        }
        let n = sides.rows * sides.cols;
        if db.len() != n || valid_mask.len() != n {
            return Err(Refusal::Lengths);
        }
        Ok(Raster {
            band: Band { db, valid_mask },
            sides,
        })
    }

    // The same of marks that are 0 or 1: refusals 1 to 3.
    #[tactic(auto, unfolding(spec::specs::Answer::reply_number, types::specs::Replies::refusal_number, spec::specs::Answer::first_of))]
    pub fn accepted(
        sides: Sides,
        db: &'a [f64],
        valid_mask: &'a [u8],
    ) -> Result<Raster<'a>, Refusal>
        ensures reply { reply_number result ≡ first_of 1 (
            sides_refused sides.rows sides.cols ∷ lengths_refused sides.rows sides.cols valid_mask.now db.now ∷ marks_refused valid_mask.now ∷ []) }
        ensures raster { IfOk result (Holds sides valid_mask.now db.now) }
    {
        let raster = Raster::new(sides, db, valid_mask)?;
        if crate::marks_refused(valid_mask) {
            return Err(Refusal::Marks);
        }
        Ok(raster)
    }
}
