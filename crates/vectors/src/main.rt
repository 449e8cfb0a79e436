#![tactic(auto)]
// Replays the stored vectors that no call of the archive reaches: steps on floats, and Clahe's tile sums and equalised pixels. Prints for
// each file how many records it has and how many differ. The record format is in oracle/README.md; the calls' vectors are in tests/vectors.
mod record; // record.rt: the numbers and the lists of a record
mod steps; // steps.rt: the steps on floats
mod tiles; // tiles.rt: Clahe's parts

use record::{Op, Record, UnknownOp, Whole};
use std::fs::File;
use std::io::{self, ErrorKind, Read};

// The most bytes that a record is read to; a longer one is cut, and what is left of it is read as further records.
const LONGEST: usize = 65536;

// Whether the engine's functions give what a record says.
fn agrees(record: Record<'_>) -> bool {
    match Op::try_from(record.code()) {
        Ok(Op::TileSums) => tiles::tile_agrees(record),
        Ok(Op::BandSums) => tiles::tiles_agree(record),
        Ok(Op::Equalised) => tiles::pixels_agree(record),
        Ok(Op::Step(step)) => steps::agree(step, record),
        // No function gives an element of such a record.
        Err(UnknownOp) => steps::each(record, |_: Whole, _: Whole| false),
    }
}

// Whether a file filled the buffer; one that ends before does not.
fn fills(file: &mut File, buffer: &mut [u8]) -> io::Result<bool> {
    match file.read_exact(buffer) {
        Ok(()) => Ok(true),
        Err(e) if e.kind() == ErrorKind::UnexpectedEof => Ok(false),
        Err(e) => Err(e),
    }
}

// Whether a file's next record agrees. None is left where the file ends or a length is 0; one that the file cuts off differs.
fn next_agrees(file: &mut File, buffer: &mut [u8; LONGEST]) -> io::Result<Option<bool>> {
    let mut length = [0u8; 4];
    if !fills(file, &mut length)? {
        return Ok(None);
    }
    let length = (u32::from_le_bytes(length) as usize).min(LONGEST);
    if length == 0 {
        return Ok(None);
    }
    let record = &mut buffer[..length];
    Ok(Some(fills(file, record)? && agrees(Record(record))))
}

// One line for a file, of a million records at most: nothing says that a file ends.
fn replay(rt: &HostRuntime, name: &str, path: &str) -> io::Result<()> {
    let mut file = File::open(rt, path)?;
    let mut buffer = [0u8; LONGEST];
    let mut records = 0u64;
    let mut differ = 0u64;
    for _ in 0..1_000_000_u64 {
        let Some(same) = next_agrees(&mut file, &mut buffer)? else {
            break;
        };
        records += 1;
        differ += u64::from(!same);
    }
    println!(rt; "{name}: {records} records, {differ} differ")
}

fn main(rt: HostRuntime) -> io::Result<()> {
    replay(&rt, "numeric", "numeric.bin")?;
    replay(&rt, "clahe", "clahe.bin")
}
