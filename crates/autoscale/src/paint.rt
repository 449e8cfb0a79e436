// The painting of valid pixels between the ends of a window, outside Clahe, each float step in the source's order; other gammas: curve.rt. A dB is
// read where its mark is not 0 and nowhere else (`valid_db`): blocks whose pixels are all valid go without a test, and in the others an invalid pixel
// works on a valid one's dB.
// Kept: that an output is as long as its band is one clause of each function that paints; a struct of band and output would be made again for each block
// and say no more than that clause. That a block's marks are all valid, or that one is, is asked by the two functions alone that a block goes to.
ghost use Rattle.std.specs.Prelude.{◌≡◌, ◌==◌, not, cond, map, position, replicate, ◌+◌, ◌<◌, min, eqb, length, get_or};
ghost use Rattle.std.specs.Float.{nan};
ghost use Rattle.spec.specs.Lists.{lowest};
ghost use Rattle.raster.specs.Bands.{pixels_of};
ghost use Rattle.spec.specs.Gamma.{U8, full_of, grey_value};
ghost use Rattle.spec.specs.Value.{value_of, paint};
ghost use Rattle.autoscale.specs.Painted.{AllValid, PaintedBy, straight};

use crate::curve;
use gamma::CurvedGamma;
use numeric::depth::Depth;
use raster::Band;
use types::WindowFloats;

// Times the full value, held to 0..that, truncated.
#[tactic(auto, unfolding(spec::specs::Value::value_of))]
fn value_of<D: Depth>(v: f64, window: WindowFloats) -> D
    ensures { result ≡ D.of (value_of (full_of D.depth) window.low window.high window.range v) }
{
    let x = numeric::normalized(v, window.low, window.high, window.range) * D::full();
    numeric::depth::held(x)
}

// A value, or 0 where the pixel is invalid.
pub(crate) fn masked<D: Depth>(mark: u8, value: D) -> D
    ensures { result ≡ cond (eqb mark 0) (D.of 0) value }
{
    if mark == 0 { D::black() } else { value }
}

// The dB of a valid pixel: the one place where painting reads one.
pub(crate) fn valid_db(band: &Band, i: usize) -> f64
    requires { (i < length band.now.db.now) × (0 < get_or band.now.valid_mask.now i 0) }
    ensures { result ≡ get_or band.now.db.now i nan }
{
    band.db[i]
}

// The least mark, 255 if there is none.
// Kept: with a `fold` grey at 8 bits under 1.1 takes 3.83 ms, with this loop 3.60 (side 512, 5 of 100 pixels invalid, medians of 60).
pub(crate) fn least_mark(valid_mask: &[u8]) -> u8
    ensures { result ≡ lowest 255 valid_mask.now }
{
    let mut least: u8 = 255;
    for mark in valid_mask {
        least = least.min(*mark);
    }
    least
}

// The place of the first valid pixel.
pub(crate) fn first_valid(valid_mask: &[u8]) -> Option<usize>
    ensures { result ≡ position (λ mark. not (mark == 0)) valid_mask.now }
{
    valid_mask.iter().position(|mark| *mark != 0)
}

// The place to read at i: i itself, or the last valid place so far where the pixel is invalid.
pub(crate) fn read_place(mark: u8, i: usize, last: usize) -> usize
    ensures { result ≡ cond (eqb mark 0) last i }
{
    if mark == 0 { last } else { i }
}

// Where the block that begins at a place ends.
pub(crate) fn block_end(at: usize, n: usize) -> usize
    requires { at < n }
    ensures { result ≡ min (at + 128) n }
{
    at + (n - at).min(128)
}

// Pixels that are all valid.
fn paint_valid<D: Depth>(band: &Band, window: WindowFloats, out: &mut [D])
    requires fact_1 { length band.now.db.now ≡ length out.old }
    requires fact_2 { AllValid band.now.valid_mask.now }
    ensures { out.new ≡ map (straight D.of D.depth window) (pixels_of band.now) }
{
    for (i, value) in out.iter_mut().enumerate() {
        *value = value_of(valid_db(band, i), window);
    }
}

// Pixels of which `first` is valid, without a branch, by the value of a dB.
pub(crate) fn paint_some<D: Depth, F: Fn(f64) -> D>(
    band: &Band,
    first: usize,
    value: F,
    out: &mut [D],
)
    requires fact_1 { length band.now.db.now ≡ length out.old }
    requires fact_2 { (first < length out.old) × (0 < get_or band.now.valid_mask.now first 0) }
    requires fact_3 { F.IsAlwaysCallable value }
    ensures { PaintedBy D.of (F.post value) (pixels_of band.now) out.new }
{
    let mut place = first;
    for (i, mark) in band.valid_mask.iter().enumerate() {
        place = read_place(*mark, i, place);
        let painted = value(valid_db(band, place));
        out[i] = masked(*mark, painted);
    }
}

// Pixels of which none is valid.
// Kept: `out.fill(D::black())` was left with `is_infallible` of that value: nothing says of a `Depth` that its clone cannot fail.
fn blacken<D: Depth>(out: &mut [D])
    ensures { out.new ≡ replicate (length out.old) (D.of 0) }
{
    for value in out.iter_mut() {
        *value = D::black();
    }
}

// A block.
fn paint_block<D: Depth>(band: &Band, window: WindowFloats, out: &mut [D])
    requires { length band.now.db.now ≡ length out.old }
    ensures { out.new ≡ map (straight D.of D.depth window) (pixels_of band.now) }
{
    if least_mark(band.valid_mask) != 0 {
        paint_valid(band, window, out);
    } else if let Some(first) = first_valid(band.valid_mask) {
        paint_some(band, first, |v| value_of(v, window), out);
    } else {
        blacken(out);
    }
}

// A band by the straight line, block by block.
// Kept: by places, since of a list that `chunks_mut` cuts up the library says how long it ends and not what stands in it.
pub(crate) fn paint_blocks<D: Depth>(band: &Band, window: WindowFloats, out: &mut [D])
    requires { length band.now.db.now ≡ length out.old }
    ensures { out.new ≡ map (straight D.of D.depth window) (pixels_of band.now) }
{
    for at in (0..out.len()).step_by(128) {
        let end = block_end(at, out.len());
        paint_block(&band.part(at, end), window, &mut out[at..end]);
    }
}

// A band at 8 bits under the window's gamma.
pub(crate) fn paint_u8(band: &Band, window: WindowFloats, out: &mut [u8])
    requires { length band.now.db.now ≡ length out.old }
    ensures { out.new ≡ map (paint (grey_value U8 window.gamma window.low window.high window.range)) (pixels_of band.now) }
{
    match CurvedGamma::of(window.gamma) {
        Some(gamma) => curve::paint_curve_u8(band, window, gamma, out),
        None => paint_blocks(band, window, out),
    }
}
