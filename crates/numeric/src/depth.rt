// The two depths of grey, as the elements of a picture: u8 and u16.
ghost use Rattle.std.specs.Prelude.{◌≡◌, ℕ, ◌%◌, ◌<◌, T, refl};
ghost use Rattle.std.proofs.Common.{arith};
ghost use Rattle.std.specs.Float.Ieee.{to_unsigned, le};
ghost use Rattle.spec.specs.Floats.{zero64, clamp_float};
ghost use Rattle.spec.specs.Gamma.{BitDepth, U8, U16, full_of};

// A depth of grey: "A depth is U8 or U16".
pub trait Depth: Copy {
    // Which of the two.
    ghost depth: { BitDepth };

    // The element that holds a number.
    ghost of: { ℕ → Self };

    // 255.0 or 65535.0.
    fn full() -> f64
        ensures { result ≡ full_of depth };

    // The level that an element holds: one of 256.
    ghost level: { Self → ℕ };

    // What an invalid pixel gets.
    fn black() -> Self
        ensures { result ≡ of 0 };

    // The element that holds a level.
    fn of_level(n: u8) -> Self
        ensures { result ≡ of n };

    // The level that an element holds.
    fn level(self) -> u8
        ensures { result ≡ level self };

    // The fraction dropped, for an x from 0.0 to the full value.
    fn truncated(x: f64) -> Self
        requires fact_1 { T (le zero64 x) }
        requires fact_2 { T (le x (full_of depth)) }
        ensures { result ≡ of (to_unsigned 64 x) };

    ghost level_law: { (n : ℕ) → n < 256 → level (of n) ≡ n };
}

impl Depth for u8 {
    ghost depth = { U8 };

    ghost of = { λ n. n };

    ghost level = { λ x. x };

    fn full() -> f64 {
        255.0
    }

    fn black() -> u8 {
        0
    }

    fn of_level(n: u8) -> u8 {
        n
    }

    fn level(self) -> u8 {
        self
    }

    fn truncated(x: f64) -> u8 {
        crate::trunc_small(x) as u8
    }

    ghost level_law = { λ n h. refl };
}

impl Depth for u16 {
    ghost depth = { U16 };

    ghost of = { λ n. n };

    ghost level = { λ x. x % 256 };

    fn full() -> f64 {
        65535.0
    }

    fn black() -> u16 {
        0
    }

    fn of_level(n: u8) -> u16 {
        u16::from(n)
    }

    fn level(self) -> u8 {
        (self % 256) as u8
    }

    fn truncated(x: f64) -> u16 {
        crate::trunc_small(x) as u16
    }

    ghost level_law = { λ n h. omega arith };
}

// Held to 0..full, the fraction dropped.
pub fn held<D: Depth>(x: f64) -> D
    ensures { result ≡ D.of (to_unsigned 64 (clamp_float zero64 (full_of D.depth) x)) }
{
    D::truncated(crate::clamp_f64(x, 0.0, D::full()))
}
