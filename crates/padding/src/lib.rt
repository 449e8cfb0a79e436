#![tactic(auto)]
// `add_padding_to_square` of padding.rs: a raster put in the middle of a square of zeros, at 8 and at 16 bits and at any other type.
ghost use Rattle.std.specs.Prelude.{◌≡◌, ◌||◌, [], ◌∷◌, ◌+◌, ◌*◌, ◌≤◌, max, length, replicate};
ghost use Rattle.std.proofs.Math.Seq.{paste};
ghost use Rattle.spec.specs.Answer.{first_of, number, reply_number, after};
ghost use Rattle.spec.specs.Refusals.{sides_refused, unlike};
ghost use Rattle.spec.specs.Padding as Padding;

use types::Refusal;

// The first row of the table that applies to the sides and the two lengths.
#[tactic(auto, unfolding(spec::specs::Answer::reply_number, types::specs::Replies::refusal_number, spec::specs::Answer::first_of, spec::specs::Refusals::sides_refused, spec::specs::Refusals::unlike))]
fn refusal(rows: usize, cols: usize, pixels: usize, padded: usize) -> Result<(), Refusal>
    ensures { reply_number result ≡ first_of 1 (sides_refused rows cols ∷ (unlike pixels (rows * cols) || unlike padded (max rows cols * max rows cols)) ∷ []) }
{
    if rows > 4096 || cols > 4096 {
        return Err(Refusal::Sides);
    }
    let max_dim = rows.max(cols);
    if pixels != rows * cols || padded != max_dim * max_dim {
        return Err(Refusal::Lengths);
    }
    Ok(())
}

// The zero over the whole square.
// Kept: a loop, since `fill` asks that a clone cannot fail, which is not known of each `T`, and the search does not find what `fill_with` wrote.
fn clear<T: Copy>(zero: T, padded: &mut [T])
    ensures { padded.new ≡ replicate (length padded.old) zero }
{
    for cell in padded.iter_mut() {
        *cell = zero;
    }
}

// One row into its place, `at` and on.
// Kept: a loop, since with `copy_from_slice` the archive asks for `memmove` from outside besides `memcpy` and `memset`.
fn copy_row<T: Copy>(row: &[T], padded: &mut [T], at: usize)
    requires { at + length row.now ≤ length padded.old }
    ensures { padded.new ≡ paste padded.old at row.now (length row.now) }
{
    for (i, cell) in row.iter().enumerate() {
        padded[at + i] = *cell;
    }
}

// The rows, one after the other, over zeros.
// Kept: the lengths are a clause, since a struct round what is lent would have to be made at each call and say no more; and rows go by their places, since
// of a list that `chunks_mut` cuts up the library says how long it ends and not what stands in it.
#[tactic(auto, using(crate::proofs::Square::row_room, crate::proofs::Square::room))]
fn place_rows<T: Copy>(zero: T, rows: usize, cols: usize, pixels: &[T], padded: &mut [T])
    requires { (length pixels.now ≡ rows * cols) × (length padded.old ≡ max rows cols * max rows cols) }
    ensures { padded.new ≡ Padding.padded zero rows cols pixels.now }
{
    clear(zero, padded);
    let max_dim = rows.max(cols);
    let pad_cols = (max_dim - cols) / 2;
    let pad_rows = (max_dim - rows) / 2;
    for row in 0..rows {
        let src_offset = row * cols;
        let dst_offset = (row + pad_rows) * max_dim + pad_cols;
        copy_row(&pixels[src_offset..src_offset + cols], padded, dst_offset);
    }
}

// The raster in the middle of a square of zeros: `zero` is that of its type.
#[tactic(auto, unfolding(spec::specs::Padding::add_padding_to_square, spec::specs::Answer::first_of, spec::specs::Answer::or_refused, spec::specs::Answer::answer, spec::specs::Answer::number, spec::specs::Answer::reply_number, types::specs::Replies::refusal_number, spec::specs::Answer::after, spec::specs::Refusals::sides_refused, spec::specs::Refusals::unlike))]
pub fn add_padding_to_square<T: Copy>(
    zero: T,
    rows: usize,
    cols: usize,
    pixels: &[T],
    padded: &mut [T],
) -> Result<(), Refusal>
    ensures reply { reply_number result ≡ number (Padding.add_padding_to_square zero rows cols pixels.now (length padded.old)) }
    ensures square { padded.new ≡ after (λ l. l) (Padding.add_padding_to_square zero rows cols pixels.now (length padded.old)) padded.old }
{
    refusal(rows, cols, pixels.len(), padded.len())?;
    place_rows(zero, rows, cols, pixels, padded);
    Ok(())
}
