#![tactic(auto)]
// The marks that `process_scalar_data_inplace` gives to a list of f32: 1 where the value is above the binary32 of bits 3727C5AC, else 0.
ghost use Rattle.std.specs.Prelude.{◌≡◌, ◌||◌, [], ◌∷◌, map, length};
ghost use Rattle.spec.specs.Answer.{first_of, number, reply_number, after};
ghost use Rattle.spec.specs.Refusals.{too_long, unlike};
ghost use Rattle.spec.specs.Marks.{mark_of, process_scalar_data_mask};

use types::Refusal;

// The mark of one value: 0 for a NaN.
#[tactic(auto, unfolding(spec::specs::Marks::mark_of))]
fn mark_of(x: f32) -> u8
    ensures { result ≡ mark_of x }
{
    if x > 1e-5 { 1 } else { 0 }
}

// The mark of each value.
// Kept: that the marks are as many is a clause, since a struct round the one lent output would have to be made at each call and say no more.
fn fill_marks(processed: &[f32], valid_mask: &mut [u8])
    requires { length valid_mask.old ≡ length processed.now }
    ensures { valid_mask.new ≡ map mark_of processed.now }
{
    for (i, x) in processed.iter().enumerate() {
        valid_mask[i] = mark_of(*x);
    }
}

// Refuses a list that is too long, and marks that are not as many.
#[tactic(auto, unfolding(spec::specs::Answer::reply_number, types::specs::Replies::refusal_number, spec::specs::Answer::first_of, spec::specs::Refusals::too_long, spec::specs::Refusals::unlike))]
fn refusal(processed: usize, valid_mask: usize) -> Result<(), Refusal>
    ensures { reply_number result ≡ first_of 2 ((too_long processed || unlike valid_mask processed) ∷ []) }
{
    if processed > 16777216 || valid_mask != processed {
        return Err(Refusal::Lengths);
    }
    Ok(())
}

// The marks of a whole list.
#[tactic(auto, unfolding(spec::specs::Marks::process_scalar_data_mask, spec::specs::Answer::first_of, spec::specs::Answer::or_refused, spec::specs::Answer::answer, spec::specs::Answer::number, spec::specs::Answer::reply_number, types::specs::Replies::refusal_number, spec::specs::Answer::after, spec::specs::Refusals::too_long, spec::specs::Refusals::unlike))]
pub fn process_scalar_data_mask(processed: &[f32], valid_mask: &mut [u8]) -> Result<(), Refusal>
    ensures reply { reply_number result ≡ number (process_scalar_data_mask processed.now (length valid_mask.old)) }
    ensures marks { valid_mask.new ≡ after (λ l. l) (process_scalar_data_mask processed.now (length valid_mask.old)) valid_mask.old }
{
    refusal(processed.len(), valid_mask.len())?;
    fill_marks(processed, valid_mask);
    Ok(())
}
