#![tactic(auto)]
// The window of a band from its statistics, by strategy, and the painting of a band from its window, outside Clahe.
pub mod band;
mod clip;
mod curve;
mod paint;

ghost use Rattle.std.specs.Prelude.{◌≡◌, true, length};
ghost use Rattle.raster.specs.Bands.{pixels_of};
ghost use Rattle.spec.specs.Stretch as Stretch;
ghost use Rattle.spec.specs.Gamma.{U8, U16};
ghost use Rattle.spec.specs.Window as Window;
ghost use Rattle.types.specs.Windows.{window_in};
ghost use Rattle.autoscale.specs.Painted.{plain_values, opens};

use raster::{Band, Raster};
use stretch::Ends;
use types::{AutoscaleStrategy, Clip, HistogramStats, Refusal, Sides, WindowAnswer, WindowFloats};

// A clip with its range, none without a valid pixel.
#[tactic(auto, unfolding(spec::specs::Window::opened))]
fn open_window(valid_count: usize, clip: Clip) -> Option<WindowFloats>
    ensures { result ≡ Window.open_window valid_count clip }
{
    if valid_count == 0 {
        return None;
    }
    let Clip { low, high, gamma } = clip;
    Some(WindowFloats {
        low,
        high,
        range: numeric::max_f64(high - low, 1.0),
        gamma,
    })
}

// The window of a band with these statistics.
#[tactic(auto, unfolding(spec::specs::Window::window_of))]
pub(crate) fn window_of(strategy: AutoscaleStrategy, stats: HistogramStats) -> Option<WindowFloats>
    ensures { result ≡ Window.window_of strategy stats }
{
    open_window(stats.valid_count, clip::choose_clip(strategy, stats))
}

// The window that a picture paints such a band with.
#[tactic(auto, unfolding(spec::specs::Window::picture_window))]
pub(crate) fn picture_window(
    strategy: AutoscaleStrategy,
    is_copol: bool,
    stats: HistogramStats,
) -> Option<WindowFloats>
    ensures { result ≡ Window.picture_window strategy is_copol stats }
{
    open_window(
        stats.valid_count,
        clip::picture_clip(strategy, is_copol, stats),
    )
}

// The window of a raster, or what refuses it: refusals 1 to 4.
fn accepted_window(
    strategy: AutoscaleStrategy,
    sides: Sides,
    db: &[f64],
    valid_mask: &[u8],
) -> Result<Option<WindowFloats>, Refusal>
    ensures { Window.read_opened result ≡ Window.autoscale_window strategy sides.rows sides.cols valid_mask.now db.now }
{
    let raster = Raster::accepted(sides, db, valid_mask)?;
    band::band_window(strategy, &raster.counted())
}

// The window call: refusals 1 to 4, then the window.
// Kept: the sides and the two lists apart, as C lends them: what holds of them is tested here. Its answer is the enum that document 01 asks for.
pub fn autoscale_window(
    strategy: AutoscaleStrategy,
    rows: usize,
    cols: usize,
    db: &[f64],
    valid_mask: &[u8],
) -> WindowAnswer
    ensures { Window.read_window result ≡ Window.autoscale_window strategy rows cols valid_mask.now db.now }
{
    match accepted_window(strategy, Sides { rows, cols }, db, valid_mask) {
        Ok(window) => WindowAnswer::of(window),
        Err(refusal) => WindowAnswer::Refused(u8::from(refusal)),
    }
}

// Whether a window's gamma is refused with 6, at 16 bits: not that of a blank or a refused one.
#[tactic(auto, unfolding(spec::specs::Window::gamma_refused, types::specs::Windows::window_in))]
pub fn gamma_refused(window: WindowAnswer) -> bool
    ensures { result ≡ Window.gamma_refused (window_in window) }
{
    let WindowAnswer::Window { gamma, .. } = window else {
        return false;
    };
    gamma != 1.0
}

// Kept: three times the same start below, by `let .. else` as document 01 asks for it here: a blank window leaves first. One function told its painter by a
// closure would have the same start, and its contract would say what the closure leaves in a lent list, more than each start that it saves.
// The greys of a band at 8 bits from its window, outside Clahe: painted, then stretched between the least and the greatest of all bytes.
pub fn plain_greys_u8(band: &Band, window: Option<WindowFloats>, out: &mut [u8])
    requires fact_1 { length band.now.db.now ≡ length out.old }
    requires fact_2 { opens U8 window ≡ true }
    ensures { out.new ≡ Stretch.stretch (plain_values U8 (pixels_of band.now) window) }
{
    let Some(window) = window else {
        out.fill(0);
        return;
    };
    paint::paint_u8(band, window, out);
    Ends::of(out).stretch_bytes(out);
}

// The values of a band at 8 bits from its window, not stretched, as the Tamed picture path has it.
pub fn autoscale_db_image_tamed_synrgb_u8(band: &Band, window: Option<WindowFloats>, out: &mut [u8])
    requires fact_1 { length band.now.db.now ≡ length out.old }
    requires fact_2 { opens U8 window ≡ true }
    ensures { out.new ≡ plain_values U8 (pixels_of band.now) window }
{
    let Some(tamed_window) = window else {
        out.fill(0);
        return;
    };
    paint::paint_u8(band, tamed_window, out);
}

// The values of a band at 16 bits from its window, outside Clahe.
pub fn plain_values_u16(band: &Band, window: Option<WindowFloats>, out: &mut [u16])
    requires fact_1 { length band.now.db.now ≡ length out.old }
    requires fact_2 { opens U16 window ≡ true }
    ensures { out.new ≡ plain_values U16 (pixels_of band.now) window }
{
    let Some(straight_window) = window else {
        out.fill(0);
        return;
    };
    paint::paint_blocks(band, straight_window, out);
}
