// The greys of one raster from its window, by strategy. At 16 bits no window of another gamma than 1.0 comes here.
// Kept: the two depths apart. They differ in a step, the stretch, and in what painting does outside Clahe, not in a type alone.
// Kept: `Ready` and `opens` are clauses, since each ties a raster or a window to what this call is lent or to its depth.
ghost use Rattle.std.specs.Prelude.{◌≡◌, true, length};
ghost use Rattle.spec.specs.Grey.{values};
ghost use Rattle.spec.specs.Picture.{picture_greys};
ghost use Rattle.spec.specs.Strategies.{is_clahe};
ghost use Rattle.spec.specs.Stretch as Stretch;
ghost use Rattle.spec.specs.Gamma.{U8, U16};
ghost use Rattle.raster.specs.Bands.{pixels_of};
ghost use Rattle.autoscale.specs.Painted.{opens};
ghost use Rattle.pipeline.specs.Ready.{Ready};
ghost use Rattle.pipeline.specs.Work.{Kept};

use crate::strategies;
use raster::Raster;
use stretch::Ends;
use types::{AutoscaleStrategy, WindowFloats};

// Bytes stretched in place between the least and the greatest of them.
fn scale_bytes(bytes: &mut [u8])
    ensures { bytes.new ≡ Stretch.stretch bytes.old }
{
    let ends = Ends::of(bytes);
    ends.stretch_bytes(bytes);
}

// The greys of a raster at 8 bits from its window: painted or equalised, then stretched.
pub(crate) fn greys_u8(
    raster: &Raster,
    strategy: AutoscaleStrategy,
    window: Option<WindowFloats>,
    out: &mut [u8],
    work: &mut [f64],
)
    requires fact_1 { Ready strategy raster.now.sides (length out.old) (length work.old) }
    requires fact_2 { opens U8 window ≡ true }
    ensures out_after { out.new ≡ Stretch.stretch (values U8 strategy raster.now.sides.rows raster.now.sides.cols (pixels_of raster.now.band) window) }
    ensures kept { Kept (is_clahe strategy) work.old work.new }
{
    match window {
        Some(window) if strategies::is_clahe(strategy) => {
            clahe::clahe_values(raster, window, work, out);
            scale_bytes(out);
        }
        _ => autoscale::plain_greys_u8(&raster.band, window, out),
    }
}

// The values of a raster at 16 bits from its window: painted or equalised.
pub(crate) fn values_u16(
    raster: &Raster,
    strategy: AutoscaleStrategy,
    window: Option<WindowFloats>,
    out: &mut [u16],
    work: &mut [f64],
)
    requires fact_1 { Ready strategy raster.now.sides (length out.old) (length work.old) }
    requires fact_2 { opens U16 window ≡ true }
    ensures out_after { out.new ≡ values U16 strategy raster.now.sides.rows raster.now.sides.cols (pixels_of raster.now.band) window }
    ensures kept { Kept (is_clahe strategy) work.old work.new }
{
    match window {
        Some(window) if strategies::is_clahe(strategy) => {
            clahe::clahe_values(raster, window, work, out);
        }
        _ => autoscale::plain_values_u16(&raster.band, window, out),
    }
}

// The greys of one band of a picture: under Tamed not stretched.
pub(crate) fn picture_greys(
    raster: &Raster,
    strategy: AutoscaleStrategy,
    window: Option<WindowFloats>,
    out: &mut [u8],
    work: &mut [f64],
)
    requires fact_1 { Ready strategy raster.now.sides (length out.old) (length work.old) }
    requires fact_2 { opens U8 window ≡ true }
    ensures out_after { out.new ≡ picture_greys strategy raster.now.sides.rows raster.now.sides.cols (pixels_of raster.now.band) window }
    ensures kept { Kept (is_clahe strategy) work.old work.new }
{
    if strategies::is_tamed(strategy) {
        autoscale::autoscale_db_image_tamed_synrgb_u8(&raster.band, window, out);
        return;
    }
    greys_u8(raster, strategy, window, out, work);
}
