// The colours of two bands, with blue worked out for each pixel or taken from the blue of every pair of bytes.
ghost use Rattle.std.specs.Prelude.{◌≡◌, ℕ, ◌+◌, ◌*◌, ◌<◌, length};
ghost use mathlib.Core.List.{zip_with};
ghost use Rattle.types.specs.declared.Rgb.{Rgb};
ghost use Rattle.spec.specs.Colour.{bytes_of};
ghost use Rattle.synthetic_rgb.specs.Palette.{Cells, Keeps, colour_at, put};

use crate::bands::Bands;
use crate::palette::Palette;
use types::Rgb;

// Writes the colour bytes of one pixel.
fn put(rgb_data: &mut [u8], j: usize, colour: Rgb)
    requires { j + 2 < length rgb_data.old }
    ensures { rgb_data.new ≡ put rgb_data.old j colour }
{
    rgb_data[j] = colour.r;
    rgb_data[j + 1] = colour.g;
    rgb_data[j + 2] = colour.b;
}

// Writes the colour of each pair of bytes: whatever rule the closure keeps, the bytes are those of the rule.
// Kept: that the output has three bytes a pixel is a clause, since a struct round the one lent slice would have to be made at each call and say no more.
fn paint<F: Fn(u8, u8) -> Rgb>(bands: &Bands, rgb_data: &mut [u8], colour: F)
    requires callable { F.IsAlwaysCallable colour }
    requires sized { length rgb_data.old ≡ 3 * length bands.now.first.now }
    ensures { (rule : ℕ → ℕ → Rgb) → Keeps (F.post colour) rule → rgb_data.new ≡ bytes_of (zip_with rule bands.now.first.now bands.now.second.now) }
{
    let second = bands.second;
    // Kept: places 3 * i and no chunks: the contracts of as_chunks_mut and chunks_exact_mut say nothing of what the slice ends as.
    for (i, v1) in bands.first.iter().enumerate() {
        put(rgb_data, 3 * i, colour(*v1, second[i]));
    }
}

impl Palette {
    // The colour of a pixel.
    fn colour_at(&self, v1: u8, v2: u8) -> Rgb
        ensures { result ≡ colour_at self.now.kind v1 v2 }
    {
        let r = self.tables.red[usize::from(v1)];
        let g = self.tables.green[usize::from(v2)];
        let place = self.place_from(r, g, 0);
        let b = self.kind.blue_at(v1, v2, place);
        Rgb { r, g, b }
    }

    // The same, with its blue from the blue of every pair of bytes.
    fn colour_in(&self, cells: &[u8; 65536], v1: u8, v2: u8) -> Rgb
        requires { Cells self.now.kind cells.now }
        ensures { result ≡ colour_at self.now.kind v1 v2 }
    {
        let v1 = usize::from(v1);
        let v2 = usize::from(v2);
        Rgb {
            r: self.tables.red[v1],
            g: self.tables.green[v2],
            b: cells[256 * v2 + v1],
        }
    }

    // The colours of two bands: a short list does not pay for 65,536 cells.
    pub(crate) fn colours(&self, bands: &Bands, rgb_data: &mut [u8])
        requires { length rgb_data.old ≡ 3 * length bands.now.first.now }
        ensures { rgb_data.new ≡ bytes_of (zip_with (colour_at self.now.kind) bands.now.first.now bands.now.second.now) }
    {
        if bands.first.len() < 2048 {
            paint(bands, rgb_data, |v1, v2| self.colour_at(v1, v2));
        } else {
            let mut cells = [0u8; 65536];
            self.blue_cells(&mut cells);
            // A copy, so that no pixel reads again where the tables lie.
            let palette = *self;
            paint(bands, rgb_data, |v1, v2| {
                palette.colour_in(&cells, v1, v2)
            });
        }
    }
}
