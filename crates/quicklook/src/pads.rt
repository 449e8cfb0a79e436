// Padding to a square whose side is the larger one.
// Kept: a function for each depth, since C has no generic ones.
ghost use Rattle.std.specs.Prelude.{◌≡◌, length};
ghost use Rattle.spec.specs.Answer.{number, after};
ghost use Rattle.spec.specs.Padding.{add_padding_to_square};

use super::replies;

// At 8 bits.
#[unsafe(no_mangle)]
pub extern "C" fn quicklook_pad_u8(rows: usize, cols: usize, data: &[u8], padded: &mut [u8]) -> u8
    ensures reply { result ≡ number (add_padding_to_square 0 rows cols «data».now (length padded.old)) }
    ensures square { padded.new ≡ after (λ l. l) (add_padding_to_square 0 rows cols «data».now (length padded.old)) padded.old }
{
    replies::reply_number(padding::add_padding_to_square(0_u8, rows, cols, data, padded))
}

// At 16 bits.
#[unsafe(no_mangle)]
pub extern "C" fn quicklook_pad_u16(
    rows: usize,
    cols: usize,
    data: &[u16],
    padded: &mut [u16],
) -> u8
    ensures reply { result ≡ number (add_padding_to_square 0 rows cols «data».now (length padded.old)) }
    ensures square { padded.new ≡ after (λ l. l) (add_padding_to_square 0 rows cols «data».now (length padded.old)) padded.old }
{
    replies::reply_number(padding::add_padding_to_square(0_u16, rows, cols, data, padded))
}
