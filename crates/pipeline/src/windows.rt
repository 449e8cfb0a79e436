// The windows of the bands of a call whose rasters are accepted, and the refusals 4 to 6: all that is known before anything is written.
ghost use Rattle.std.specs.Prelude.{◌≡◌, ◌||◌};
ghost use Rattle.spec.specs.Answer.{read};
ghost use Rattle.raster.specs.Bands.{pixels_of};
ghost use Rattle.pipeline.specs.Windows.{window_tiles_refused, grey_window, grey_window16, both_windows, picture_windows};

use crate::scene::Scene;
use crate::strategies;
use raster::Raster;
use types::{AutoscaleStrategy, CoPol, PictureWindows, Refusal, Sides, WindowAnswer, WindowFloats};

// 5: whether Clahe refuses a side, of a raster with this window.
fn window_tiles_refused(
    raster: &Raster,
    strategy: AutoscaleStrategy,
    window: Option<WindowFloats>,
) -> bool
    ensures { result ≡ window_tiles_refused strategy raster.now.sides.rows raster.now.sides.cols window }
{
    if window.is_none() {
        return false;
    }
    let Sides { rows, cols } = raster.sides;
    strategies::is_clahe(strategy) && clahe::tiles::either_side_refused(rows, cols)
}

// The window of a grey call, or what refuses the call.
pub(crate) fn grey_window(
    raster: &Raster,
    strategy: AutoscaleStrategy,
) -> Result<Option<WindowFloats>, Refusal>
    ensures { read result ≡ grey_window strategy raster.now.sides (pixels_of raster.now.band) }
{
    let window = autoscale::band::band_window(strategy, &raster.counted())?;
    if window_tiles_refused(raster, strategy, window) {
        return Err(Refusal::Tiles);
    }
    Ok(window)
}

// The same at 16 bits, where another gamma than 1.0 is refused.
pub(crate) fn grey_window_u16(
    raster: &Raster,
    strategy: AutoscaleStrategy,
) -> Result<Option<WindowFloats>, Refusal>
    ensures { read result ≡ grey_window16 strategy raster.now.sides (pixels_of raster.now.band) }
{
    let window = grey_window(raster, strategy)?;
    if autoscale::gamma_refused(WindowAnswer::of(window)) {
        return Err(Refusal::Gamma);
    }
    Ok(window)
}

// 5 of a picture, of bands with these windows.
fn either_tiles_refused(scene: &Scene, strategy: AutoscaleStrategy, windows: PictureWindows) -> bool
    ensures { result ≡ (window_tiles_refused strategy scene.now.first.sides.rows scene.now.first.sides.cols windows.first || window_tiles_refused strategy scene.now.first.sides.rows scene.now.first.sides.cols windows.second) }
{
    window_tiles_refused(&scene.first, strategy, windows.first)
        || window_tiles_refused(&scene.second, strategy, windows.second)
}

// The windows of two bands, or row 4.
pub(crate) fn both_windows(
    scene: &Scene,
    strategy: AutoscaleStrategy,
    copol: CoPol,
) -> Result<PictureWindows, Refusal>
    ensures { result ≡ both_windows strategy copol (pixels_of scene.now.first.band) (pixels_of scene.now.second.band) }
{
    let is_copol = strategies::first_is_copol(copol);
    let first = autoscale::band::band_picture_window(strategy, is_copol, &scene.first.counted())?;
    let is_copol = strategies::second_is_copol(copol);
    let second = autoscale::band::band_picture_window(strategy, is_copol, &scene.second.counted())?;
    Ok(PictureWindows { first, second })
}

// Both windows of a picture, or what refuses the call: each row of the table is tested over both bands before the next.
pub(crate) fn picture_windows(
    scene: &Scene,
    strategy: AutoscaleStrategy,
    copol: CoPol,
) -> Result<PictureWindows, Refusal>
    ensures { read result ≡ picture_windows strategy copol scene.now.first.sides (pixels_of scene.now.first.band) (pixels_of scene.now.second.band) }
{
    let windows = both_windows(scene, strategy, copol)?;
    if either_tiles_refused(scene, strategy, windows) {
        return Err(Refusal::Tiles);
    }
    Ok(windows)
}
