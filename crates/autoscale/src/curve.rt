// Painting at 8 bits under a gamma of 0.8, 0.9 or 1.1: a pixel's value is read off the thresholds of that gamma. As in paint.rt a dB is read where its
// mark is not 0 and nowhere else; blocks whose pixels are all valid are normalised first, into a lent list.
// Kept: `paint_block_by` and `paint_blocks_by` beside paint.rt's `paint_block` and `paint_blocks`. They hand on a lent list besides, so one function for both
// would be told by a closure that writes to two lists, and say what each call leaves there: more than the loop that it saves. The clauses are paint.rt's,
// for its reason.
ghost use Rattle.std.specs.Prelude.{◌≡◌, map, length};
ghost use Rattle.spec.specs.Gamma.{curved};
ghost use Rattle.raster.specs.Bands.{pixels_of};
ghost use Rattle.spec.specs.Value.{normalized, paint};
ghost use Rattle.gamma.specs.Curved.{number};
ghost use Rattle.gamma.specs.Thresholds.{Values};
ghost use Rattle.autoscale.specs.Painted.{AllValid, CurveValues, CurvePainted};

use crate::paint;
use gamma::{Curve, CurvedGamma};
use raster::Band;
use types::WindowFloats;

// The value of a dB by the curve.
fn curve_value(v: f64, window: WindowFloats, curve: &Curve) -> u8
    ensures { Values curve.now.thresholds.now (normalized window.low window.high window.range v) result }
{
    let t = numeric::normalized(v, window.low, window.high, window.range);
    curve.value(t)
}

// Pixels that are all valid, normalised.
fn normalize_valid(band: &Band, window: WindowFloats, normal: &mut [f64])
    requires fact_1 { length band.now.db.now ≡ length normal.old }
    requires fact_2 { AllValid band.now.valid_mask.now }
    ensures { normal.new ≡ map (normalized window.low window.high window.range) band.now.db.now }
{
    for (i, place) in normal.iter_mut().enumerate() {
        let v = paint::valid_db(band, i);
        *place = numeric::normalized(v, window.low, window.high, window.range);
    }
}

// The values of normalised pixels.
fn values_of(normal: &[f64], curve: &Curve, out: &mut [u8])
    requires { length normal.now ≡ length out.old }
    ensures { CurveValues curve.now.thresholds.now normal.now out.new }
{
    for (i, t) in normal.iter().enumerate() {
        out[i] = curve.value(*t);
    }
}

// Pixels that are all valid, by way of a lent list.
fn paint_valid_by(
    band: &Band,
    window: WindowFloats,
    curve: &Curve,
    normal: &mut [f64],
    out: &mut [u8],
)
    requires fact_1 { length band.now.db.now ≡ length out.old }
    requires fact_2 { length normal.old ≡ length out.old }
    requires fact_3 { AllValid band.now.valid_mask.now }
    ensures { CurvePainted curve.now.thresholds.now window (pixels_of band.now) out.new }
{
    normalize_valid(band, window, normal);
    values_of(normal, curve, out);
}

// A block, with a lent list as long.
fn paint_block_by(
    band: &Band,
    window: WindowFloats,
    curve: &Curve,
    normal: &mut [f64],
    out: &mut [u8],
)
    requires fact_1 { length band.now.db.now ≡ length out.old }
    requires fact_2 { length normal.old ≡ length out.old }
    ensures { CurvePainted curve.now.thresholds.now window (pixels_of band.now) out.new }
{
    if paint::least_mark(band.valid_mask) != 0 {
        paint_valid_by(band, window, curve, normal, out);
    } else if let Some(first) = paint::first_valid(band.valid_mask) {
        paint::paint_some(band, first, |v| curve_value(v, window, curve), out);
    } else {
        out.fill(0);
    }
}

// A band by the thresholds, block by block, by places as in paint.rt.
fn paint_blocks_by(
    band: &Band,
    window: WindowFloats,
    curve: &Curve,
    normal: &mut [f64],
    out: &mut [u8],
)
    requires fact_1 { length band.now.db.now ≡ length out.old }
    requires fact_2 { length normal.old ≡ 128 }
    ensures { CurvePainted curve.now.thresholds.now window (pixels_of band.now) out.new }
{
    for at in (0..out.len()).step_by(128) {
        let end = paint::block_end(at, out.len());
        paint_block_by(
            &band.part(at, end),
            window,
            curve,
            &mut normal[0..end - at],
            &mut out[at..end],
        );
    }
}

// A band under one of the three gammas.
pub(crate) fn paint_curve_u8(band: &Band, window: WindowFloats, gamma: CurvedGamma, out: &mut [u8])
    requires { length band.now.db.now ≡ length out.old }
    ensures { out.new ≡ map (paint (curved (number gamma) window.low window.high window.range)) (pixels_of band.now) }
{
    let curve = Curve::new(gamma);
    let mut normal: [f64; 128] = [0.0; 128];
    paint_blocks_by(band, window, &curve, &mut normal, out);
}
