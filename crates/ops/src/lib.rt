#![tactic(auto)]
// The operations of ops.rs: two lists of f32, value by value, into a lent list.
ghost use Rattle.std.specs.Prelude.{◌≡◌, ◌||◌, length, Float};
ghost use mathlib.Core.List.{[], ◌∷◌, zip_with};
ghost use Rattle.spec.specs.Answer.{first_of, number, reply_number, after};
ghost use Rattle.spec.specs.Refusals.{too_long, unlike};
ghost use Rattle.spec.specs.Ops.{sum_op, difference_op, guarded_ratio, ratio_op, log_ratio_op, normalized_diff_op, operate_arrays};
ghost use Rattle.ops.specs.Chosen.{operate, Keeps};

use numeric::Binary;
use types::{PolarizationOperation, Refusal};

// a over b, or 0 unless the size of b exceeds 1e-10.
#[tactic(auto, unfolding(spec::specs::Ops::guarded_ratio, spec::specs::Floats::abs_float))]
fn guarded_ratio(a: f32, b: f32) -> f32
    ensures { result ≡ guarded_ratio a b }
{
    if Binary::abs(b) > 1e-10 { a / b } else { 0.0 }
}

// Writes what the step gives of each two values: whatever rule the step keeps, the values are those of the rule.
// Kept: that the lists are of one length is a clause, since a struct round the one lent output would have to be made at each call and say no more.
fn fill<F: Fn(f32, f32) -> f32>(a: &[f32], b: &[f32], out: &mut [f32], step: F)
    requires callable { F.IsAlwaysCallable step }
    requires sized { (length out.old ≡ length a.now) × (length b.now ≡ length a.now) }
    ensures { (rule : Float → Float → Float) → Keeps (F.post step) rule → out.new ≡ zip_with rule a.now b.now }
{
    for (i, x) in a.iter().enumerate() {
        out[i] = step(*x, b[i]);
    }
}

// Refuses lists of other lengths than the first one's, and lists that are too long.
#[tactic(auto, unfolding(spec::specs::Answer::reply_number, types::specs::Replies::refusal_number, spec::specs::Answer::first_of, spec::specs::Refusals::too_long, spec::specs::Refusals::unlike))]
fn refusal(a: usize, b: usize, out: usize) -> Result<(), Refusal>
    ensures { reply_number result ≡ first_of 2 ((unlike b a || too_long a || unlike out a) ∷ []) }
{
    if b != a || a > 16777216 || out != a {
        return Err(Refusal::Lengths);
    }
    Ok(())
}

// The operation on whole lists.
#[tactic(auto, unfolding(spec::specs::Ops::operate_arrays, spec::specs::Answer::first_of, spec::specs::Answer::or_refused, spec::specs::Answer::answer, spec::specs::Answer::number, spec::specs::Answer::reply_number, types::specs::Replies::refusal_number, spec::specs::Answer::after, spec::specs::Refusals::too_long, spec::specs::Refusals::unlike, spec::specs::Ops::sum_op, spec::specs::Ops::difference_op, spec::specs::Ops::ratio_op, spec::specs::Ops::log_ratio_op, spec::specs::Ops::normalized_diff_op))]
fn operate_arrays(
    operation: PolarizationOperation,
    a: &[f32],
    b: &[f32],
    out: &mut [f32],
) -> Result<(), Refusal>
    ensures reply { reply_number result ≡ number (operate_arrays (operate operation) a.now b.now (length out.old)) }
    ensures values { out.new ≡ after (λ l. l) (operate_arrays (operate operation) a.now b.now (length out.old)) out.old }
{
    refusal(a.len(), b.len(), out.len())?;
    match operation {
        PolarizationOperation::Sum => fill(a, b, out, |x, y| x + y),
        PolarizationOperation::Diff => fill(a, b, out, |x, y| x - y),
        PolarizationOperation::Ratio | PolarizationOperation::LogRatio => {
            fill(a, b, out, guarded_ratio);
        }
        PolarizationOperation::NDiff => fill(a, b, out, |x, y| guarded_ratio(x - y, x + y)),
    }
    Ok(())
}

// Kept: a call for each operation, as the archive has them, since C has no generic functions.

// a + b.
pub fn sum_arrays(a: &[f32], b: &[f32], out: &mut [f32]) -> Result<(), Refusal>
    ensures reply { reply_number result ≡ number (operate_arrays sum_op a.now b.now (length out.old)) }
    ensures values { out.new ≡ after (λ l. l) (operate_arrays sum_op a.now b.now (length out.old)) out.old }
{
    operate_arrays(PolarizationOperation::Sum, a, b, out)
}

// a - b.
pub fn difference_arrays(a: &[f32], b: &[f32], out: &mut [f32]) -> Result<(), Refusal>
    ensures reply { reply_number result ≡ number (operate_arrays difference_op a.now b.now (length out.old)) }
    ensures values { out.new ≡ after (λ l. l) (operate_arrays difference_op a.now b.now (length out.old)) out.old }
{
    operate_arrays(PolarizationOperation::Diff, a, b, out)
}

// a / b, or 0 at a small divisor.
pub fn ratio_arrays(a: &[f32], b: &[f32], out: &mut [f32]) -> Result<(), Refusal>
    ensures reply { reply_number result ≡ number (operate_arrays ratio_op a.now b.now (length out.old)) }
    ensures values { out.new ≡ after (λ l. l) (operate_arrays ratio_op a.now b.now (length out.old)) out.old }
{
    operate_arrays(PolarizationOperation::Ratio, a, b, out)
}

// (a - b) / (a + b), or 0 at a small divisor.
pub fn normalized_diff_arrays(a: &[f32], b: &[f32], out: &mut [f32]) -> Result<(), Refusal>
    ensures reply { reply_number result ≡ number (operate_arrays normalized_diff_op a.now b.now (length out.old)) }
    ensures values { out.new ≡ after (λ l. l) (operate_arrays normalized_diff_op a.now b.now (length out.old)) out.old }
{
    operate_arrays(PolarizationOperation::NDiff, a, b, out)
}

// The same as the ratio.
pub fn log_ratio_arrays(a: &[f32], b: &[f32], out: &mut [f32]) -> Result<(), Refusal>
    ensures reply { reply_number result ≡ number (operate_arrays log_ratio_op a.now b.now (length out.old)) }
    ensures values { out.new ≡ after (λ l. l) (operate_arrays log_ratio_op a.now b.now (length out.old)) out.old }
{
    operate_arrays(PolarizationOperation::LogRatio, a, b, out)
}
