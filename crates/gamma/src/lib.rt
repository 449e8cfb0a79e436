#![tactic(auto)]
// Gamma at eight bits: the thresholds of 0.8, 0.9 and 1.1, and a value by them.
ghost use Rattle.std.specs.Prelude.{◌≡◌, ◌<◌};
ghost use Rattle.spec.specs.Gamma.{over, under, curve};
ghost use Rattle.gamma.specs.Curved.{number, number_or_straight};
ghost use Rattle.gamma.specs.Thresholds.{cell_of, Row, Rising, Rows, Guess, Nearly, Guesses, Values};

mod numbers;

// The gammas that curve at eight bits.
#[derive(Clone, Copy, Debug, PartialEq, Eq)]
pub enum CurvedGamma {
    Gamma08,
    Gamma09,
    Gamma11,
}

impl CurvedGamma {
    // The one that a gamma is, and none for a straight line.
    #[tactic(auto, unfolding(spec::specs::Gamma::curve))]
    pub fn of(gamma: f64) -> Option<CurvedGamma>
        ensures { number_or_straight result ≡ curve gamma }
    {
        if gamma == 0.8 {
            Some(CurvedGamma::Gamma08)
        } else if gamma == 0.9 {
            Some(CurvedGamma::Gamma09)
        } else if gamma == 1.1 {
            Some(CurvedGamma::Gamma11)
        } else {
            None
        }
    }
}

// The thresholds of all three gammas.
fn all_thresholds() -> &'static [[f64; 255]; 3]
    ensures { Rows result.now }
{
    &numbers::THRESHOLDS
}

// The thresholds of one of them.
fn thresholds(gamma: CurvedGamma) -> &'static [f64; 255]
    ensures row { Row (over (number gamma)) (under (number gamma)) result.now }
    ensures rising { Rising result.now }
{
    let all = all_thresholds();
    match gamma {
        CurvedGamma::Gamma08 => &all[0],
        CurvedGamma::Gamma09 => &all[1],
        CurvedGamma::Gamma11 => &all[2],
    }
}

// The cell of 0..1 in which t lies.
fn cell_of(t: f64) -> usize
    ensures fact_1 { result ≡ cell_of t }
    ensures fact_2 { result < 1024 }
{
    numeric::nearest_small(numeric::clamp_f64(t * 1024.0, 0.0, 1023.0)) as usize
}

// How many thresholds lie in cells before this one, from how many lie before the cell before it.
fn guess_of(below: usize, cell: usize, thresholds: &[f64; 255]) -> usize
    requires fact_1 { Rising thresholds.now }
    requires fact_2 { Nearly thresholds.now cell below }
    requires fact_3 { cell < 1024 }
    ensures { Guess thresholds.now cell result }
{
    if cell_of(thresholds[below]) < cell {
        below + 1
    } else {
        below
    }
}

// How many thresholds lie in cells before each.
fn guesses_of(thresholds: &[f64; 255]) -> [u8; 1024]
    requires { Rising thresholds.now }
    ensures { Guesses thresholds.now result }
{
    let mut guesses: [u8; 1024] = [0; 1024];
    let mut below: usize = 0;
    for (cell, guess) in guesses.iter_mut().enumerate() {
        below = guess_of(below, cell, thresholds);
        *guess = below as u8;
    }
    guesses
}

// The thresholds of one gamma, and how many of them lie in cells before each.
#[derive(Drop)]
pub struct Curve {
    pub thresholds: &'static [f64; 255],
    pub guesses: [u8; 1024],
    pub ghost rising: { Rising thresholds.now },
    pub ghost guessed: { Guesses thresholds.now guesses },
}

impl Curve {
    pub fn new(gamma: CurvedGamma) -> Curve
        ensures { Row (over (number gamma)) (under (number gamma)) result.thresholds.now }
    {
        let thresholds = thresholds(gamma);
        let guesses = guesses_of(thresholds);
        Curve {
            thresholds,
            guesses,
        }
    }

    // The value of t: the thresholds in cells before its own, and the one in its own if t reaches it.
    pub fn value(&self, t: f64) -> u8
        ensures { Values self.now.thresholds.now t result }
    {
        let below = self.guesses[cell_of(t)];
        if self.thresholds[usize::from(below)] <= t {
            below + 1
        } else {
            below
        }
    }
}
