// A band, and a raster: a band with its sides.
ghost use Rattle.std.specs.Prelude.{◌≡◌, ◌*◌, ◌-◌, ◌<◌, ◌≤◌, ◌^◌, length, take, drop};

use types::Sides;

// Decibels, and their marks, as many.
#[derive(Clone, Copy)]
pub struct Band<'a> {
    pub db: &'a [f64],
    pub valid_mask: &'a [u8],
    pub ghost alike: { length valid_mask.now ≡ length db.now },
}

// A band whose pixels a u32 counts.
#[derive(Clone, Copy)]
pub struct CountedBand<'a> {
    pub pixels: Band<'a>,
    pub ghost short: { length pixels.db.now < 2 ^ 32 },
}

// A band, row by row.
#[derive(Clone, Copy)]
pub struct Raster<'a> {
    pub band: Band<'a>,
    pub sides: Sides,
    pub ghost sized: { length band.db.now ≡ sides.rows * sides.cols },
    pub ghost small: { (sides.rows ≤ 4096) × (sides.cols ≤ 4096) },
}

impl<'a> Band<'a> {
    // Its pixels from one place to before another.
    pub fn part(&self, at: usize, end: usize) -> Band<'a>
        requires { (at ≤ end) × (end ≤ length self.now.db.now) }
        ensures { (result.db.now ≡ take (end - at) (drop at self.now.db.now)) × (result.valid_mask.now ≡ take (end - at) (drop at self.now.valid_mask.now)) }
    {
        Band {
            db: &self.db[at..end],
            valid_mask: &self.valid_mask[at..end],
        }
    }
}

impl<'a> Raster<'a> {
    // Its band, whose pixels a u32 counts.
    pub fn counted(&self) -> CountedBand<'a>
        ensures { result.pixels ≡ self.now.band }
    {
        CountedBand { pixels: self.band }
    }
}
