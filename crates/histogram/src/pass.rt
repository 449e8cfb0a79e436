// One pass over the valid dB of a band, in raster order.
ghost use Rattle.raster.specs.Bands.{pixels_of};
ghost use Rattle.histogram.specs.Gathered.{IsCallableAlong, Gathers};

use raster::Band;

// What `step` makes of `start`, called at each valid dB with what was gathered before it, the value and its place; nothing if a valid dB is refused.
pub(crate) fn gather_valid<S: Copy, F: Fn(S, f64, usize) -> S>(
    band: &Band,
    start: S,
    step: F,
) -> Option<S>
    requires { IsCallableAlong (F.pre step) (F.post step) start 0 (pixels_of band.now) }
    ensures { Gathers (F.post step) start (pixels_of band.now) result }
{
    let valid_mask = band.valid_mask;
    let mut gathered = start;
    // Kept: by index, which `step` takes; `zip` would test both ends at each pixel, as in bins.rt.
    for (i, v) in band.db.iter().enumerate() {
        if valid_mask[i] != 0 {
            if raster::decibel_refused(*v) {
                return None;
            }
            gathered = step(gathered, *v, i);
        }
    }
    Some(gathered)
}
