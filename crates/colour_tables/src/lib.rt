#![tactic(auto)]
// The colour tables: red and green of each byte, by default and above a floor, and the ratios at which blue rises. Each holds the numbers of document 01's rule.
ghost use Rattle.std.specs.Prelude.{◌≡◌, ◌+◌, ◌≤◌, length};
ghost use Rattle.spec.specs.Colour.{red, green, red_above, green_above};
ghost use Rattle.colour_tables.specs.Tables.{Table, Tables, Thresholds};

mod numbers;

// The tables of one rule: red and green of each byte, and the ratios at which blue rises, numerator and denominator of each.
#[derive(Clone, Copy)]
pub struct ColourTables {
    pub red: &'static [u8; 256],
    pub green: &'static [u8; 256],
    pub thresholds: &'static [[u16; 2]],
}

// The suppressed red and green of each byte, a table for each floor.
#[derive(Clone, Copy)]
struct Floors {
    reds: &'static [[u8; 256]; 38],
    greens: &'static [[u8; 256]; 38],
}

impl Floors {
    // All floors.
    fn all() -> Self
        ensures reds { Tables red_above result.reds.now }
        ensures greens { Tables green_above result.greens.now }
    {
        Floors {
            reds: &numbers::RED_ABOVE,
            greens: &numbers::GREEN_ABOVE,
        }
    }
}

// The ratios at which the suppressed blue rises, above whatever floor.
fn blue_above_thresholds() -> &'static [[u16; 2]]
    ensures right { Thresholds 918 8 result.now }
    ensures sized { length result.now ≡ 66 }
{
    &numbers::BLUE_ABOVE
}

impl ColourTables {
    // The default tables.
    pub fn plain() -> Self
        ensures red { Table red result.red.now }
        ensures green { Table green result.green.now }
        ensures blue { Thresholds 1224 0 result.thresholds.now }
        ensures blue_sized { length result.thresholds.now ≡ 108 }
    {
        ColourTables {
            red: &numbers::RED,
            green: &numbers::GREEN,
            thresholds: &numbers::BLUE,
        }
    }

    // The suppressed tables above the floor f.
    pub fn above(f: usize) -> Self
        requires { (3 ≤ f) × (f ≤ 40) }
        ensures red { Table (red_above f) result.red.now }
        ensures green { Table (green_above f) result.green.now }
        ensures blue { Thresholds 918 8 result.thresholds.now }
        ensures blue_sized { length result.thresholds.now ≡ 66 }
    {
        let floors = Floors::all();
        ColourTables {
            red: &floors.reds[f - 3],
            green: &floors.greens[f - 3],
            thresholds: blue_above_thresholds(),
        }
    }
}
