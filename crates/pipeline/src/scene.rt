// Two bands of the same sides.
ghost use Rattle.std.specs.Prelude.{◌≡◌};

use raster::Raster;

// The rasters of a picture's two bands.
#[derive(Clone, Copy)]
pub(crate) struct Scene<'a> {
    pub(crate) first: Raster<'a>,
    pub(crate) second: Raster<'a>,
    ghost alike: { second.sides ≡ first.sides },
}
