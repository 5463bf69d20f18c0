// Writing a write's records into their slots.
ghost use Rattle.std.specs.Prelude.{◌≡◌, ℕ, ◌%◌, List, length, false, MatchOption};
ghost use Rattle.drive.specs.Views.{Wrote, slot_count};
ghost use Rattle.journal.specs.Layout.{slot_of};
ghost use Rattle.journal.specs.Fills.{AreBlocks, Filled, Filling, WritesStand, whole_write};

use crate::record::{BLOCK_BYTES, Head, Record, WriteFault};
use crate::{LAST_RECORD, MOST_BLOCKS, Write};
use drive::{Drive, SLOT_BYTES};

// Puts one record into its slot.
fn put_record<D: Drive>(drive: &mut D, record: &Record)
    ensures { Wrote (D.meaning drive.old) (record.now.head.number % slot_count (D.meaning drive.old)) (slot_of record.now) (D.meaning drive.new) }
{
    let mut bytes = [0; SLOT_BYTES];
    record.write_to(&mut bytes);
    let place = record.head.number % u64::from(drive.slots());
    let _ = drive.write(place as u32, &bytes);
}

// Puts the records of a write of these blocks into their slots.
fn put_records<D: Drive>(drive: &mut D, write: Write, blocks: &[[u8; BLOCK_BYTES]])
    requires { length blocks.now ≡ write.first.count }
    ensures { let first = write.first in (bytes : List ℕ) → AreBlocks bytes blocks.now → Filled (D.meaning drive.old) first.number first.address first.count bytes (D.meaning drive.new) }
{
    for (i, block) in blocks.iter().enumerate() {
        let head = write.head(i as u16);
        let record = Record {
            head,
            block: *block,
        };
        put_record(drive, &record);
    }
}

// The whole blocks that the bytes are, if these are as many as a write covers.
fn whole_blocks(bytes: &[u8]) -> Option<&[[u8; BLOCK_BYTES]]>
    ensures { MatchOption result (whole_write bytes.now ≡ false) (λ blocks. AreBlocks bytes.now blocks.now) }
{
    let (blocks, rest) = bytes.as_chunks::<BLOCK_BYTES>();
    let whole = rest.is_empty() && !blocks.is_empty() && blocks.len() <= usize::from(MOST_BLOCKS);
    whole.then_some(blocks)
}

// Puts the records of one write into their slots: blocks for the addresses from that one on, records from that one on.
pub fn write_records<D: Drive>(
    drive: &mut D,
    from: u64,
    address: u32,
    blocks: &[u8],
) -> Result<(), WriteFault>
    ensures { Filling (D.meaning drive.old) from address blocks.now result (D.meaning drive.new) }
{
    if from > LAST_RECORD {
        return Err(WriteFault::TooFar);
    }
    let blocks = whole_blocks(blocks).ok_or(WriteFault::BadLength)?;
    let count = blocks.len() as u16;
    if u64::from(address) + u64::from(count) > 1 << 32 {
        return Err(WriteFault::BadAddress);
    }
    if u32::from(count) > drive.slots() {
        return Err(WriteFault::TooFewSlots);
    }
    let first = Head {
        number: from,
        address,
        index: 0,
        count,
    };
    put_records(drive, Write { first }, blocks);
    Ok(())
}

// A write that is not refused leaves each of its slots with its record and the others as they were, and stands.
pub fn writes_stand()
    ensures { WritesStand }
{}
