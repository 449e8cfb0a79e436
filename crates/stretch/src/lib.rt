#![tactic(auto)]
// `scale_u16_to_u8`: values stretched to bytes between their least and their greatest, in f32, each step rounded once.
ghost use Rattle.std.specs.Prelude.{◌≡◌, ℕ, map, ◌+◌, ◌≤◌, min, length, get_or};
ghost use Rattle.spec.specs.Answer.{number, reply_number, after};
ghost use Rattle.spec.specs.Floats.{round_as_u64};
ghost use Rattle.spec.specs.Lists.{lowest, highest};
ghost use Rattle.spec.specs.Stretch.{stretch_byte, scale_u16_to_u8};
ghost use Rattle.stretch.specs.Tables.{Stretches};

use numeric::Binary;
use types::Refusal;

// z to the nearest whole number, half away from zero, held to 0..255.
fn round_byte(z: f32) -> u8
    ensures { result ≡ min (round_as_u64 z) 255 }
{
    z.round_as_u64().min(255) as u8
}

// A value of at most 16 bits.
pub trait Level: Copy {
    ghost level: { Self → ℕ };

    fn level(self) -> u16
        ensures { result ≡ level self };
}

impl Level for u8 {
    ghost level = { λ x. x };

    fn level(self) -> u16 {
        u16::from(self)
    }
}

impl Level for u16 {
    ghost level = { λ x. x };

    fn level(self) -> u16 {
        self
    }
}

// The least and the greatest of a list.
#[derive(Clone, Copy)]
pub struct Ends {
    pub lo: u16,
    pub hi: u16,
}

impl Ends {
    // 65535 and 0 of an empty list.
    pub fn of<T: Level>(values: &[T]) -> Ends
        ensures { (result.lo ≡ lowest 65535 (map T.level values.now)) × (result.hi ≡ highest 0 (map T.level values.now)) }
    {
        let mut lo: u16 = 65535;
        let mut hi: u16 = 0;
        for value in values {
            let x = value.level();
            lo = lo.min(x);
            hi = hi.max(x);
        }
        Ends { lo, hi }
    }

    // x between the ends, as a byte: 0 unless lo is below hi.
    #[tactic(auto, unfolding(spec::specs::Stretch::stretch_byte))]
    fn byte(self, x: u16) -> u8
        ensures { result ≡ stretch_byte self.lo self.hi x }
    {
        if self.lo < self.hi {
            let scale = 255.0 / (f32::from(self.hi) - f32::from(self.lo));
            round_byte((f32::from(x) - f32::from(self.lo)) * scale)
        } else {
            0
        }
    }

    // Each value by itself.
    // Kept: that the output is as long is a clause, since a struct of both lists would be made at each call and say no more.
    fn stretch_each(self, data: &[u16], out: &mut [u8])
        requires { length out.old ≡ length «data».now }
        ensures { out.new ≡ map (stretch_byte self.lo self.hi) «data».now }
    {
        for (i, x) in data.iter().enumerate() {
            out[i] = self.byte(*x);
        }
    }

    // The stretched byte of each of the first n numbers.
    fn fill_table<const N: usize>(self, n: usize, table: &mut [u8; N])
        requires fact_1 { n ≤ 65536 }
        requires fact_2 { n ≤ N }
        ensures { Stretches self.lo self.hi n table.new }
    {
        for (i, value) in table[..n].iter_mut().enumerate() {
            *value = self.byte(i as u16);
        }
    }

    // A long list: each value up to hi, of which no other occurs, is stretched once.
    fn stretch_by_table(self, data: &[u16], out: &mut [u8])
        requires fact_1 { length out.old ≡ length «data».now }
        requires fact_2 { self.hi ≡ highest 0 «data».now }
        ensures { out.new ≡ map (stretch_byte self.lo self.hi) «data».now }
    {
        let mut table = [0u8; 65536];
        self.fill_table(usize::from(self.hi) + 1, &mut table);
        look_up(data, &table, out);
    }

    // Bytes stretched in place. Between 0 and 255 nothing changes.
    pub fn stretch_bytes(self, bytes: &mut [u8])
        ensures { bytes.new ≡ map (stretch_byte self.lo self.hi) bytes.old }
    {
        if self.lo == 0 && self.hi == 255 {
            return;
        }
        let mut table = [0u8; 256];
        self.fill_table(256, &mut table);
        look_up_bytes(bytes, &table);
    }
}

// Each value's entry.
fn look_up(data: &[u16], table: &[u8; 65536], out: &mut [u8])
    requires { length out.old ≡ length «data».now }
    ensures { out.new ≡ map (λ x. get_or table.now x 0) «data».now }
{
    for (i, x) in data.iter().enumerate() {
        out[i] = table[usize::from(*x)];
    }
}

// Each byte's entry, in place.
// Kept: no plainer as one with `look_up`, which reads one list and writes another.
fn look_up_bytes(bytes: &mut [u8], table: &[u8; 256])
    ensures { bytes.new ≡ map (λ x. get_or table.now x 0) bytes.old }
{
    for byte in bytes.iter_mut() {
        *byte = table[usize::from(*byte)];
    }
}

// The stretch by itself: refused with 2 unless the lengths are equal and at most 16,777,216.
pub fn scale_u16_to_u8(data: &[u16], out: &mut [u8]) -> Result<(), Refusal>
    ensures result_value { reply_number result ≡ number (scale_u16_to_u8 «data».now (length out.old)) }
    ensures out_after { out.new ≡ after (λ l. l) (scale_u16_to_u8 «data».now (length out.old)) out.old }
{
    if data.len() > 16777216 {
        return Err(Refusal::Lengths);
    }
    if out.len() != data.len() {
        return Err(Refusal::Lengths);
    }
    let ends = Ends::of(data);
    if data.len() < 65536 {
        ends.stretch_each(data, out);
    } else {
        ends.stretch_by_table(data, out);
    }
    Ok(())
}
