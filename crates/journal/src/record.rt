// A record and the slot that holds it.
ghost use Rattle.std.specs.Prelude.{◌≡◌, ◌+◌, ◌^◌, ◌<◌, ◌≤◌};
ghost use Rattle.journal.specs.Layout.{SlotsStand, head_of, record_of, slot, slot_of};
ghost use Rattle.journal.specs.Fills.{write_number};

use drive::SLOT_BYTES;
use endian::{get, put, put_part};

pub mod fill;

// How many bytes a block has.
pub const BLOCK_BYTES: usize = 512;

// Where a record's block begins in its slot.
const HEAD_BYTES: usize = 16;

// What a slot says of its record: which it is, which block of the volume it is for, and its place in its write.
#[derive(Clone, Copy, PartialEq, Eq, Debug)]
pub struct Head {
    pub number: u64,
    pub address: u32,
    pub index: u16,
    pub count: u16,
}

// A record: a head and the block that was written.
#[derive(Clone, Copy, PartialEq, Eq, Debug)]
pub struct Record {
    pub head: Head,
    pub block: [u8; BLOCK_BYTES],
}

// Why a write is refused, by its number.
#[derive(Clone, Copy, PartialEq, Eq, Debug)]
pub enum WriteFault {
    TooFar = 1,
    BadLength = 2,
    BadAddress = 3,
    TooFewSlots = 4,
}

// The number of such a refusal.
impl From<WriteFault> for u32 {
    ghost from_gives = { λ fault number. number ≡ write_number fault };

    fn from(fault: WriteFault) -> u32 {
        fault as u32
    }
}

// Writes a record's slot.
fn put_slot(out: &mut [u8; SLOT_BYTES], head: &Head, block: &[u8; BLOCK_BYTES])
    ensures { out.new ≡ slot head.now block.now }
{
    put(out, 0, head.number);
    put(out, 8, head.address);
    put(out, 12, head.index);
    put(out, 14, head.count);
    put_part(out, HEAD_BYTES, block);
}

impl Head {
    // The head that a slot holds, whatever its bytes are.
    #[tactic(auto, using(endian::proofs::Laws::unle_le))]
    pub fn read_from(bytes: &[u8; SLOT_BYTES]) -> Head
        ensures { result ≡ head_of bytes.now }
    {
        Head {
            number: get(bytes, 0).unwrap(),
            address: get(bytes, 8).unwrap(),
            index: get(bytes, 12).unwrap(),
            count: get(bytes, 14).unwrap(),
        }
    }
}

impl Record {
    // Writes the record's slot.
    pub fn write_to(&self, out: &mut [u8; SLOT_BYTES])
        ensures { out.new ≡ slot_of self.now }
    {
        put_slot(out, &self.head, &self.block);
    }

    // The record that a slot holds, whatever its bytes are.
    pub fn read_from(bytes: &[u8; SLOT_BYTES]) -> Record
        ensures { result ≡ record_of bytes.now }
    {
        let mut block = [0; BLOCK_BYTES];
        block.copy_from_slice(&bytes[HEAD_BYTES..HEAD_BYTES + BLOCK_BYTES]);
        Record {
            head: Head::read_from(bytes),
            block,
        }
    }
}

// Every record has one slot, and every slot is that of one record.
pub fn one_slot_each()
    ensures { SlotsStand }
{}
