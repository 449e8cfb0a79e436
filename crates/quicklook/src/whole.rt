// The calls on whole lists: marks, the stretch by itself, and arithmetic element by element.
// Kept: a function for each operation, since C has no generic ones.
ghost use Rattle.std.specs.Prelude.{◌≡◌, length};
ghost use Rattle.spec.specs.Answer.{number, after};
ghost use Rattle.spec.specs.Marks.{process_scalar_data_mask};
ghost use Rattle.spec.specs.Stretch.{scale_u16_to_u8};
ghost use Rattle.spec.specs.Ops.{sum_op, difference_op, ratio_op, normalized_diff_op, log_ratio_op, operate_arrays};

use super::replies;

// 1 where a value is above the threshold, else 0.
#[unsafe(no_mangle)]
pub extern "C" fn quicklook_marks(processed: &[f32], valid_mask: &mut [u8]) -> u8
    ensures reply { result ≡ number (process_scalar_data_mask processed.now (length valid_mask.old)) }
    ensures marks { valid_mask.new ≡ after (λ l. l) (process_scalar_data_mask processed.now (length valid_mask.old)) valid_mask.old }
{
    replies::reply_number(marks::process_scalar_data_mask(processed, valid_mask))
}

// Between the least and the greatest of all elements to 0..255.
#[unsafe(no_mangle)]
pub extern "C" fn quicklook_stretch(data: &[u16], out: &mut [u8]) -> u8
    ensures reply { result ≡ number (scale_u16_to_u8 «data».now (length out.old)) }
    ensures stretched { out.new ≡ after (λ l. l) (scale_u16_to_u8 «data».now (length out.old)) out.old }
{
    replies::reply_number(stretch::scale_u16_to_u8(data, out))
}

// a + b.
#[unsafe(no_mangle)]
pub extern "C" fn quicklook_sum(a: &[f32], b: &[f32], out: &mut [f32]) -> u8
    ensures reply { result ≡ number (operate_arrays sum_op a.now b.now (length out.old)) }
    ensures values { out.new ≡ after (λ l. l) (operate_arrays sum_op a.now b.now (length out.old)) out.old }
{
    replies::reply_number(ops::sum_arrays(a, b, out))
}

// a - b.
#[unsafe(no_mangle)]
pub extern "C" fn quicklook_difference(a: &[f32], b: &[f32], out: &mut [f32]) -> u8
    ensures reply { result ≡ number (operate_arrays difference_op a.now b.now (length out.old)) }
    ensures values { out.new ≡ after (λ l. l) (operate_arrays difference_op a.now b.now (length out.old)) out.old }
{
    replies::reply_number(ops::difference_arrays(a, b, out))
}

// a / b, or 0 at a small divisor.
#[unsafe(no_mangle)]
pub extern "C" fn quicklook_ratio(a: &[f32], b: &[f32], out: &mut [f32]) -> u8
    ensures reply { result ≡ number (operate_arrays ratio_op a.now b.now (length out.old)) }
    ensures values { out.new ≡ after (λ l. l) (operate_arrays ratio_op a.now b.now (length out.old)) out.old }
{
    replies::reply_number(ops::ratio_arrays(a, b, out))
}

// (a - b) / (a + b), or 0 at a small divisor.
#[unsafe(no_mangle)]
pub extern "C" fn quicklook_normalized_diff(a: &[f32], b: &[f32], out: &mut [f32]) -> u8
    ensures reply { result ≡ number (operate_arrays normalized_diff_op a.now b.now (length out.old)) }
    ensures values { out.new ≡ after (λ l. l) (operate_arrays normalized_diff_op a.now b.now (length out.old)) out.old }
{
    replies::reply_number(ops::normalized_diff_arrays(a, b, out))
}

// The same as the ratio.
#[unsafe(no_mangle)]
pub extern "C" fn quicklook_log_ratio(a: &[f32], b: &[f32], out: &mut [f32]) -> u8
    ensures reply { result ≡ number (operate_arrays log_ratio_op a.now b.now (length out.old)) }
    ensures values { out.new ≡ after (λ l. l) (operate_arrays log_ratio_op a.now b.now (length out.old)) out.old }
{
    replies::reply_number(ops::log_ratio_arrays(a, b, out))
}
