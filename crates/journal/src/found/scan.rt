// The scan of a log.
ghost use Rattle.std.specs.Prelude.{◌≡◌, ◌≢◌, ◌+◌, ◌^◌, ◌<◌, ◌≤◌, [], ◌∷◌, ◌++◌, length, min, MatchBool};
ghost use Rattle.drive.specs.Views.{slot_count};
ghost use Rattle.journal.specs.Layout.{head_of};
ghost use Rattle.journal.specs.Writes.{ScanMost, Scanned, ScansStand, last_record, records, slot_at};
ghost use Rattle.journal.specs.Taken.{Begins};
ghost use Rattle.journal.specs.Fills.{nth_head};
ghost use Rattle.journal.specs.Example.{TornLog};

use crate::found::Found;
use crate::record::Head;
use crate::span::{ScanFault, Span};
use crate::{LAST_RECORD, MOST_BLOCKS, Write};
use drive::{Drive, SLOT_BYTES};

impl Head {
    // Whether the head begins a write at a record that fits the volume and the records left to take.
    fn begins(&self, at: u64, blocks: u32, left: u64) -> bool
        ensures { MatchBool result (Begins self.now at blocks left) (Begins self.now at blocks left → ⊥) }
    {
        let end = u64::from(self.address) + u64::from(self.count);
        self.number == at
            && self.index == 0
            && 1 <= self.count
            && self.count <= MOST_BLOCKS
            && end <= u64::from(blocks)
            && u64::from(self.count) <= left
    }

    // Whether the head is that of block i of the write.
    fn is_of(&self, write: &Write, i: u16) -> bool
        requires { i < write.now.first.count }
        ensures { let first = write.now.first in let due = nth_head first.number first.address first.count i in MatchBool result (self.now ≡ due) (self.now ≢ due) }
    {
        *self == write.head(i)
    }
}

impl Found {
    // Empties the list.
    fn clear(&mut self)
        ensures { self.new ≡ record { spans = []; room = self.old.room } }
    {
        self.spans.clear();
    }

    // Adds a write to a list that has room for it.
    fn add(&mut self, span: Span)
        requires { length self.old.spans < self.old.room }
        ensures { self.new ≡ record { spans = self.old.spans ++ span ∷ []; room = self.old.room } }
    {
        self.spans.push_reserved(span);
    }
}

// The head in the slot of a record.
fn head_at<D: Drive>(drive: &D, number: u64, buffer: &mut [u8; SLOT_BYTES]) -> Head
    ensures { result ≡ head_of (slot_at (D.meaning drive.now).current number) }
{
    let slot = number % u64::from(drive.slots());
    let _ = drive.read(slot as u32, buffer);
    Head::read_from(buffer)
}

// Takes one write after another from a record on, until none stands or the next would pass the most that may be taken.
fn take_writes<D: Drive>(drive: &D, blocks: u32, from: u64, most: u64, found: &mut Found) -> u64
    requires small { slot_count (D.meaning drive.now) < 2 ^ 32 }
    requires near { from ≤ last_record }
    requires wide { min (slot_count (D.meaning drive.now)) most ≤ found.old.room }
    ensures scan { ScanMost (D.meaning drive.now).current blocks most from found.new.spans }
    ensures few { result ≤ slot_count (D.meaning drive.now) }
    ensures taken { result ≡ records found.new.spans }
    ensures room { found.new.room ≡ found.old.room }
{
    found.clear();
    let mut buffer = [0; SLOT_BYTES];
    let mut taken = 0;
    'writes: loop {
        let at = from + taken;
        let first = head_at(drive, at, &mut buffer);
        if !first.begins(at, blocks, most - taken) {
            break;
        }
        let write = Write { first };
        for i in 1..first.count {
            if !head_at(drive, at + u64::from(i), &mut buffer).is_of(&write, i) {
                break 'writes;
            }
        }
        found.add(Span {
            address: first.address,
            count: first.count,
        });
        taken += u64::from(first.count);
    }
    taken
}

// Scans the log of a volume of that many blocks from a record on, for at most that many records.
// The list is filled with the writes that stand, one after another, and the answer is the record after them.
pub fn scan<D: Drive>(
    drive: &D,
    blocks: u32,
    from: u64,
    most: u64,
    found: &mut Found,
) -> Result<u64, ScanFault>
    ensures { Scanned (D.meaning drive.now) blocks from most found.old result found.new }
{
    if from > LAST_RECORD {
        return Err(ScanFault::TooFar);
    }
    if u64::from(found.room()) < most.min(u64::from(drive.slots())) {
        return Err(ScanFault::NoRoom);
    }
    let taken = take_writes(drive, blocks, from, most, found);
    Ok(from + taken)
}

// What a scan finds is settled by the slots, has no more records than there are slots, and a limit of that many is none.
pub fn one_scan_each()
    ensures { ScansStand }
{}

// A log that ends in half a write: the scan takes the whole write before it, and nothing from there on.
pub fn torn_log()
    ensures { TornLog }
{}
