// The steps on floats: whether the engine's functions give what a record says, element by element.
use super::record::{List, Number, Record, Step, Whole};
use numeric::Binary;

// Equal to the bit; all NaNs count as equal.
pub(crate) fn is_same<T: Into<f64>>(a: T, b: T) -> bool {
    let (a, b) = (a.into(), b.into());
    if a.is_nan() || b.is_nan() {
        a.is_nan() && b.is_nan()
    } else {
        a.to_bits() == b.to_bits()
    }
}

// The parts of the engine floor what is not negative only, by truncation.
fn is_floor(x: f64, found: f64) -> bool {
    x < 0.0 || x.is_nan() || x.as_u64() == found.as_u64()
}

// Kept: apart from is_rounded. One function told both ways would take a clause of where the second may be called, and each of its two calls a closure with that clause.
// Both ways to truncate, where the second one may be asked.
fn is_truncated(x: f64, n: u64) -> bool {
    if x.as_u64() != n {
        return false;
    }
    if x >= 0.0 && x <= 65535.0 {
        return u64::from(numeric::trunc_small(x)) == n;
    }
    true
}

// Both ways to round to a whole number, where the second one may be asked.
fn is_rounded(x: f64, n: u64) -> bool {
    if x.round_as_u64() != n {
        return false;
    }
    if x >= 0.0 && x <= 65535.0 {
        return u64::from(numeric::round_small(x)) == n;
    }
    true
}

// The bits of f64 as i64, from the sizes of its two sides.
fn signed_bits(x: f64) -> u64 {
    if x < 0.0 {
        return 0u64.wrapping_sub((-x).as_u64().min(0x8000_0000_0000_0000));
    }
    x.as_u64().min(0x7fff_ffff_ffff_ffff)
}

// Kept: `IsAlwaysCallable` in the four functions below is the language's own clause for a closure that may be called on anything.
// Whether a test holds at each place of a list that has as many results, in the record's last list.
fn hold<F: Fn(usize) -> bool>(xs: List<'_>, results: List<'_>, test: F) -> bool
    requires { F.IsAlwaysCallable test }
{
    xs.count == results.count && results.is_last() && (0..xs.count).all(test)
}

// Whether a test holds of each element of a record's first list and its result.
pub(crate) fn each<X: Number, Y: Number, F: Fn(X, Y) -> bool>(record: Record<'_>, test: F) -> bool
    requires { F.IsAlwaysCallable test }
{
    let xs = record.first();
    let results = xs.following();
    hold(xs, results, |i| test(xs.get(i), results.get(i)))
}

// Whether a test holds of each element, that of the second list in its place, and its result.
fn each_pair<F: Fn(f64, f64, f64) -> bool>(record: Record<'_>, test: F) -> bool
    requires { F.IsAlwaysCallable test }
{
    let xs = record.first();
    let ys = xs.following();
    let results = ys.following();
    hold(xs, results, |i| test(xs.get(i), ys.get(i), results.get(i)))
}

// Whether a test holds of each element, the two ends that it is held to, and its result.
fn each_held<T: Number, F: Fn(T, T, T, T) -> bool>(record: Record<'_>, test: F) -> bool
    requires { F.IsAlwaysCallable test }
{
    let xs = record.first();
    let ends = xs.following();
    let results = ends.following();
    hold(
        xs,
        results,
        |i| test(xs.get(i), ends.get(0), ends.get(1), results.get(i)),
    )
}

// Whether the engine's functions give what a record of a step says. The engine rounds an f32 before it holds it to a byte.
pub(crate) fn agree(step: Step, record: Record<'_>) -> bool {
    match step {
        Step::Sqrt => each(record, |x, y| is_same(numeric::sqrt_f64(x), y)),
        Step::RoundF64 => each(record, |x: f64, y| is_same(Binary::round(x), y)),
        Step::RoundF32 => each(record, |x: f32, y| is_same(Binary::round(x), y)),
        Step::Floor => each(record, is_floor),
        Step::AbsF64 => each(record, |x: f64, y| is_same(Binary::abs(x), y)),
        Step::AbsF32 => each(record, |x: f32, y| is_same(Binary::abs(x), y)),
        Step::Max => each_pair(record, |a, b, y| numeric::max_f64(a, b) == y),
        Step::Min => each_pair(record, |a, b, y| numeric::min_f64(a, b) == y),
        Step::ClampF64 => each_held(
            record,
            |x, low, high, y| numeric::clamp_f64(x, low, high) == y,
        ),
        Step::ClampF32 => each_held(record, |x: f32, _low, _high, y: f32| {
            x.round_as_u64().min(255) == y.round_as_u64()
        }),
        Step::F64AsU64 => each(record, |x, n: Whole| is_truncated(x, n.0)),
        Step::F64AsI64 => each(record, |x, n: Whole| signed_bits(x) == n.0),
        Step::F64AsU32 => each(
            record,
            |x: f64, n: Whole| x.as_u64().min(0xffff_ffff) == n.0,
        ),
        Step::F64AsU16 => each(record, |x: f64, n: Whole| x.as_u64().min(0xffff) == n.0),
        Step::F64AsU8 => each(record, |x: f64, n: Whole| x.as_u64().min(0xff) == n.0),
        Step::F32AsU8 => each(record, |x: f32, n: Whole| x.as_u64().min(0xff) == n.0),
        Step::RoundF64AsU64 => each(record, |x, n: Whole| is_rounded(x, n.0)),
        Step::RoundF32AsU8 => each(record, |x: f32, n: Whole| x.round_as_u64().min(0xff) == n.0),
    }
}
