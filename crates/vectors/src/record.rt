// A record of a file of vectors: what it asks, and the numbers of its lists, their least significant bytes first. What a record has not is read as 0.
ghost use Rattle.std.specs.Prelude.{◌≤◌};

use numeric::Binary;
use types::Sides;

// What a record has the results of: Clahe's parts, or a step on floats.
#[derive(Clone, Copy, Debug, PartialEq, Eq)]
pub(crate) enum Op {
    TileSums,
    BandSums,
    Equalised,
    Step(Step),
}

#[derive(Clone, Copy, Debug, PartialEq, Eq)]
pub(crate) enum Step {
    Sqrt,
    RoundF64,
    RoundF32,
    Floor,
    AbsF64,
    AbsF32,
    Max,
    Min,
    ClampF64,
    ClampF32,
    F64AsU64,
    F64AsI64,
    F64AsU32,
    F64AsU16,
    F64AsU8,
    F32AsU8,
    RoundF64AsU64,
    RoundF32AsU8,
}

// A number that stands for no op.
#[derive(Clone, Copy)]
pub(crate) struct UnknownOp;

impl TryFrom<u8> for Op {
    type Error = UnknownOp;

    fn try_from(code: u8) -> Result<Op, UnknownOp> {
        let step = match code {
            17 => return Ok(Op::TileSums),
            18 => return Ok(Op::BandSums),
            19 => return Ok(Op::Equalised),
            32 => Step::Sqrt,
            33 => Step::RoundF64,
            34 => Step::RoundF32,
            35 => Step::Floor,
            36 => Step::AbsF64,
            37 => Step::AbsF32,
            38 => Step::Max,
            39 => Step::Min,
            40 => Step::ClampF64,
            41 => Step::ClampF32,
            48 => Step::F64AsU64,
            49 => Step::F64AsI64,
            50 => Step::F64AsU32,
            51 => Step::F64AsU16,
            52 => Step::F64AsU8,
            53 => Step::F32AsU8,
            54 => Step::RoundF64AsU64,
            55 => Step::RoundF32AsU8,
            _ => return Err(UnknownOp),
        };
        Ok(Op::Step(step))
    }
}

// A record's bytes from a place on; 0 beyond its end.
fn bytes_at<const N: usize>(record: &[u8], at: usize) -> [u8; N] {
    let mut bytes = [0; N];
    for (i, byte) in bytes.iter_mut().enumerate() {
        *byte = record.get(at.wrapping_add(i)).copied().unwrap_or(0);
    }
    bytes
}

// A list of a record: how many bytes an element has, how many elements there are, and where the first begins.
#[derive(Clone, Copy)]
pub(crate) struct List<'a> {
    record: &'a [u8],
    width: usize,
    pub(crate) count: usize,
    start: usize,
    ghost short: { count ≤ 4096 },
}

impl<'a> List<'a> {
    // The list at a place of a record: none of its elements if it names more than 4,096.
    fn at(record: &'a [u8], at: usize) -> List<'a> {
        let width = match u8::from_le_bytes(bytes_at(record, at)) {
            8 => 8,
            4 => 4,
            2 => 2,
            _ => 1,
        };
        let named = u32::from_le_bytes(bytes_at(record, at.wrapping_add(1)));
        let count = if named <= 4096 { named as usize } else { 0 };
        List {
            record,
            width,
            count,
            start: at.wrapping_add(5),
        }
    }

    // Where an element begins.
    fn place(&self, i: usize) -> usize {
        self.start.wrapping_add(i.wrapping_mul(self.width))
    }

    // The list after it.
    pub(crate) fn following(&self) -> List<'a> {
        List::at(self.record, self.place(self.count))
    }

    // Whether the record ends with it.
    pub(crate) fn is_last(&self) -> bool {
        self.place(self.count) == self.record.len()
    }

    // An element, read by its type whatever the list's width is. There is one at any place, beyond the list too.
    pub(crate) fn get<T: Number>(&self, i: usize) -> T {
        T::of(self, i)
    }

    // The bytes of an element and those after it.
    fn bytes<const N: usize>(&self, i: usize) -> [u8; N] {
        bytes_at(self.record, self.place(i))
    }
}

// A number as an element of a list.
pub(crate) trait Number: Copy {
    fn of(list: &List<'_>, i: usize) -> Self;
}

// Kept: a body for each width. No macro of the repository's own may write an impl.
impl Number for u8 {
    fn of(list: &List<'_>, i: usize) -> u8 {
        u8::from_le_bytes(list.bytes(i))
    }
}

impl Number for u32 {
    fn of(list: &List<'_>, i: usize) -> u32 {
        u32::from_le_bytes(list.bytes(i))
    }
}

impl Number for f32 {
    fn of(list: &List<'_>, i: usize) -> f32 {
        f32::of_bits(u32::from_le_bytes(list.bytes(i)))
    }
}

impl Number for f64 {
    fn of(list: &List<'_>, i: usize) -> f64 {
        f64::of_bits(u64::from_le_bytes(list.bytes(i)))
    }
}

// A whole number as wide as its list says.
#[derive(Clone, Copy)]
pub(crate) struct Whole(pub(crate) u64);

impl Number for Whole {
    fn of(list: &List<'_>, i: usize) -> Whole {
        Whole(match list.width {
            8 => u64::from_le_bytes(list.bytes(i)),
            4 => u64::from(u32::from_le_bytes(list.bytes(i))),
            2 => u64::from(u16::from_le_bytes(list.bytes(i))),
            _ => u64::from(u8::from_le_bytes(list.bytes(i))),
        })
    }
}

// A record: its bytes.
#[derive(Clone, Copy)]
pub(crate) struct Record<'a>(pub(crate) &'a [u8]);

impl<'a> Record<'a> {
    // What it has the results of, by its code.
    pub(crate) fn code(self) -> u8 {
        u8::from_le_bytes(bytes_at(self.0, 0))
    }

    // The sides of its raster.
    pub(crate) fn sides(self) -> Sides {
        Sides {
            rows: u32::from_le_bytes(bytes_at(self.0, 4)) as usize,
            cols: u32::from_le_bytes(bytes_at(self.0, 8)) as usize,
        }
    }

    // Its first list.
    pub(crate) fn first(self) -> List<'a> {
        List::at(self.0, 13)
    }
}
