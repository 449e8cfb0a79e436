#![tactic(auto)]
// Steps on floats that the Rust takes by methods and by `as`, each bit-exact: picks, casts, rounding, the root.
ghost use Rattle.std.specs.Prelude.{◌≡◌, ℕ, ◌+◌, ◌*◌, ◌/◌, ◌%◌, ◌^◌, ◌<◌, ◌≤◌, T, from_bits, Float, pos, refl};
ghost use Rattle.std.specs.Float.{Format, binary32, binary64};
ghost use Rattle.std.specs.Float.Ieee.{to_unsigned, add, sub, le, of_int, prec};
ghost use Rattle.spec.specs.Floats.{zero64, max_float, min_float, clamp_float, abs_float, round_as_u64};
ghost use Rattle.spec.specs.Value.{full16};
ghost use Rattle.numeric.specs.Round.{round_float, half, big64, nearest_small};
ghost use Rattle.spec.specs.Value as Value;
ghost use Rattle.spec.specs.Root.{whole_root, root_of, sqrt_float};

pub mod depth; // depth.rt: the two depths of grey

// `f64::max`: a NaN in the first place loses, and of two equals the second is given.
// Kept: of two equals std's may give either, and 0.0 and -0.0 are equal.
pub fn max_f64(a: f64, b: f64) -> f64
    ensures { result ≡ max_float a b }
{
    if a > b { a } else { b }
}

// `f64::min`, likewise.
pub fn min_f64(a: f64, b: f64) -> f64
    ensures { result ≡ min_float a b }
{
    if a < b { a } else { b }
}

// x held to low..high.
pub fn clamp_f64(x: f64, low: f64, high: f64) -> f64
    ensures { result ≡ clamp_float low high x }
{
    min_f64(max_f64(x, low), high)
}

// The place of a value in a window: held to low..high, minus low, over range.
#[tactic(auto, unfolding(spec::specs::Value::normalized))]
pub fn normalized(v: f64, low: f64, high: f64, range: f64) -> f64
    ensures { result ≡ Value.normalized low high range v }
{
    (clamp_f64(v, low, high) - low) / range
}

// `f32` and `f64`: what the Rust does by methods and by `as`, in the words of the pictures' definitions.
pub trait Binary: Copy {
    type Bits;

    // the format of the type, a value as IEEE 754 has it, and a bit pattern as a number
    ghost format: { Format };

    ghost float: { Self → Float };

    ghost pattern: { Self.Bits → ℕ };

    // From here on every value is whole.
    ghost WHOLE: { ℕ };

    const WHOLE: u64;

    // `abs`.
    fn abs(self) -> Self
        ensures { float result ≡ abs_float (float self) };

    // `round`: half away from zero. A zero keeps its sign.
    fn round(self) -> Self
        ensures { float result ≡ round_float format (float self) };

    // `as u64`: the fraction dropped, held to the range, 0 for a NaN.
    fn as_u64(self) -> u64
        ensures value { result ≡ to_unsigned 64 (float self) }
        ensures whole { WHOLE ≤ result → result ≡ round_as_u64 (float self) };

    // Whether it is n + 1/2 or above.
    fn reaches_half(self, n: u64) -> bool
        requires { n < WHOLE }
        ensures { result ≡ le (add format (of_int format (pos n)) half) (float self) };

    // `from_bits`: every NaN pattern gives the NaN.
    fn of_bits(n: Self::Bits) -> Self
        ensures { float result ≡ from_bits format (pattern n) };

    // `round` and then `as u64`. By the whole part, which takes half the time of `self.round().as_u64()`.
    fn round_as_u64(self) -> u64
        ensures { result ≡ round_as_u64 (float self) }
    {
        let n = self.as_u64();
        if n < Self::WHOLE && self.reaches_half(n) {
            n + 1
        } else {
            n
        }
    }

    ghost whole_law: { WHOLE * 2 ≡ 2 ^ prec format };
}

impl Binary for f64 {
    type Bits = u64;

    ghost format = { binary64 };

    ghost float = { λ x. x };

    ghost pattern = { λ n. n };

    const WHOLE: u64 = 0x10_0000_0000_0000;

    ghost WHOLE = { 0x10_0000_0000_0000 };

    #[tactic(auto, using(crate::proofs::Facts::abs_is))]
    fn abs(self) -> f64 {
        f64::abs(self)
    }

    #[tactic(auto, using(crate::proofs::Away::round_is))]
    fn round(self) -> f64 {
        f64::round(self)
    }

    #[tactic(auto, using(crate::proofs::Facts::holds, crate::proofs::Away::large))]
    fn as_u64(self) -> u64 {
        std::num::saturating_f64_to_u64(self)
    }

    #[tactic(auto, using(crate::proofs::Away::whole_fits))]
    fn reaches_half(self, n: u64) -> bool {
        n as f64 + 0.5 <= self
    }

    ghost whole_law = { refl };

    fn of_bits(n: u64) -> f64 {
        std::num::f64_from_bits_with_nan(n)
    }
}

impl Binary for f32 {
    type Bits = u32;

    ghost format = { binary32 };

    ghost float = { λ x. x };

    ghost pattern = { λ n. n };

    const WHOLE: u64 = 0x80_0000;

    ghost WHOLE = { 0x80_0000 };

    #[tactic(auto, using(crate::proofs::Facts::abs_is))]
    fn abs(self) -> f32 {
        f32::abs(self)
    }

    #[tactic(auto, using(crate::proofs::Away::round_is))]
    fn round(self) -> f32 {
        f32::round(self)
    }

    #[tactic(auto, using(crate::proofs::Facts::holds, crate::proofs::Away::large))]
    fn as_u64(self) -> u64 {
        std::num::saturating_f32_to_u64(self)
    }

    #[tactic(auto, using(crate::proofs::Away::whole_fits))]
    fn reaches_half(self, n: u64) -> bool {
        n as f32 + 0.5 <= self
    }

    ghost whole_law = { refl };

    fn of_bits(n: u32) -> f32 {
        std::num::f32_from_bits_with_nan(n)
    }
}

// The whole number nearest to an x from 0.0 to 65535.0, as a float and as an integer: 2^52 added and taken off leaves it.
// Kept: these bounds of x are clauses of the four steps here; a struct of one float would be made just before each call and say no more.
fn near(x: f64) -> (f64, u32)
    requires fact_1 { T (le zero64 x) }
    requires fact_2 { T (le x full16) }
    ensures { (result.0 ≡ sub binary64 (add binary64 x big64) big64) × (result.1 ≡ to_unsigned 64 result.0) }
{
    let nearest = x + 4503599627370496.0 - 4503599627370496.0;
    (nearest, nearest as i32 as u32)
}

// The fraction dropped, for such an x.
pub fn trunc_small(x: f64) -> u32
    requires fact_1 { T (le zero64 x) }
    requires fact_2 { T (le x full16) }
    ensures { result ≡ to_unsigned 64 x }
{
    let (nearest, n) = near(x);
    if nearest > x { n - 1 } else { n }
}

// Whatever 2^52 added and taken off leaves, for such an x.
#[tactic(auto, unfolding(crate::specs::Round::nearest_small))]
pub fn nearest_small(x: f64) -> u32
    requires fact_1 { T (le zero64 x) }
    requires fact_2 { T (le x full16) }
    ensures { result ≡ nearest_small x }
{
    let (_, n) = near(x);
    n
}

// `round` for such an x: half away from zero.
pub fn round_small(x: f64) -> u32
    requires fact_1 { T (le zero64 x) }
    requires fact_2 { T (le x full16) }
    ensures { result ≡ round_as_u64 x }
{
    let (nearest, n) = near(x);
    if nearest + 0.5 <= x { n + 1 } else { n }
}

// A whole-number root under way: its digits so far, what their square leaves, and the digits of the number to come.
#[derive(Clone, Copy)]
struct Rooting {
    root: u64,
    rest: u64,
    digits: u64,
}

// Two digits of the number more, and one of the root: 1 where the square stays within.
fn next_digit(s: Rooting) -> Rooting
    requires { (s.root < 2 ^ 54) × ((s.rest ≤ s.root * 2) × (s.digits < 2 ^ 54)) }
    ensures { (result.root * result.root + result.rest ≡ (s.root * s.root + s.rest) * 4 + s.digits / 2 ^ 52) × ((result.rest ≤ result.root * 2) × ((result.digits ≡ s.digits % 2 ^ 52 * 4) × (result.root ≤ s.root * 2 + 1))) }
{
    let rest = s.rest * 4 + s.digits / 0x10_0000_0000_0000;
    let digits = s.digits % 0x10_0000_0000_0000 * 4;
    let trial = s.root * 4 + 1;
    if trial <= rest {
        Rooting {
            root: s.root * 2 + 1,
            rest: rest - trial,
            digits,
        }
    } else {
        Rooting {
            root: s.root * 2,
            rest,
            digits,
        }
    }
}

// The 54 digits of the whole-number root of digits * 2^54.
fn whole_root(digits: u64) -> u64
    requires { digits < 2 ^ 54 }
    ensures { result ≡ whole_root (digits * 2 ^ 54) 54 0 }
{
    let mut s = Rooting {
        root: 0,
        rest: 0,
        digits,
    };
    for _ in 0..54u64 {
        s = next_digit(s);
    }
    s.root
}

// The root of q * 2^(k - 1074), q moved up to its 107 or 108 digits by its leading bit.
fn root_of(q: u64, k: u64) -> f64
    requires fact_1 { 0 < q }
    requires fact_2 { q < 2 ^ 53 }
    requires fact_3 { k < 2046 }
    ensures { result ≡ root_of q k }
{
    let up = u64::leading_zeros(q) as u64 - 11;
    let odd = (k + up) % 2;
    let root = whole_root(q << (up + odd));
    f64::of_bits((k + 1022 - up - odd) / 2 * 0x10_0000_0000_0000 + (root + 1) / 2)
}

// `f64::sqrt`: correctly rounded, the zeros and the infinity their own roots, the NaN below zero.
#[tactic(auto, using(crate::proofs::Facts::holds, crate::proofs::Rooted::fields, crate::proofs::Rooted::normal, crate::proofs::Rooted::unbounded, crate::proofs::Rooted::not_nan, crate::proofs::Rooted::subnormal, crate::proofs::Rooted::zero_root))]
pub fn sqrt_f64(x: f64) -> f64
    ensures { result ≡ sqrt_float x }
{
    if x > 0.0 {
        let bits = f64::to_bits(x);
        let field = bits / 0x10_0000_0000_0000;
        let digits = bits % 0x10_0000_0000_0000;
        if field == 0 {
            return root_of(digits, 0);
        }
        if field < 2047 {
            return root_of(digits + 0x10_0000_0000_0000, field - 1);
        }
        return x;
    }
    if x == 0.0 {
        return x;
    }
    0.0 / 0.0
}
