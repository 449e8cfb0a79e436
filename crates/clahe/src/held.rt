// Holding a value to 0.0..1.0, left out where it is known to be there.
ghost use Rattle.std.specs.Prelude.{T};
ghost use Rattle.spec.specs.Floats.{zero64, one64, clamp_float};
ghost use Rattle.clahe.specs.Within.{InUnit, Alike};

// A value held to 0.0..1.0, of which it may be known that it is in it. Its zero may be either.
pub(crate) fn held(x: f64, within: bool) -> f64
    requires { T within → InUnit x }
    ensures { InUnit result × Alike result (clamp_float zero64 one64 x) }
{
    if within {
        x
    } else {
        numeric::clamp_f64(x, 0.0, 1.0)
    }
}
