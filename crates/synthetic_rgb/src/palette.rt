// A palette: one composition with its tables.
ghost use Rattle.std.specs.Prelude.{◌≡◌, ◌≤◌};
ghost use Rattle.synthetic_rgb.specs.Palette.{Palette as Fits};
ghost use Rattle.synthetic_rgb.specs.declared.Composition.TheVariants.{Plain, Suppressed};

use crate::Composition;
use colour_tables::ColourTables;

// What the colours of one composition are found by.
#[derive(Clone, Copy)]
pub(crate) struct Palette {
    pub(crate) kind: Composition,
    pub(crate) tables: ColourTables,
    ghost fits: { Fits kind tables.red.now tables.green.now tables.thresholds.now },
}

impl Palette {
    // The default colours.
    pub(crate) fn plain() -> Self
        ensures { result.kind ≡ Plain }
    {
        Palette {
            kind: Composition::Plain,
            tables: ColourTables::plain(),
        }
    }

    // The suppressed colours above the floor f.
    pub(crate) fn suppressed(f: u8) -> Self
        requires { (3 ≤ f) × (f ≤ 40) }
        ensures { result.kind ≡ Suppressed f }
    {
        Palette {
            kind: Composition::Suppressed(f),
            tables: ColourTables::above(usize::from(f)),
        }
    }
}
