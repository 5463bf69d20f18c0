// Zeroing every slot that holds no record of a run.
ghost use Rattle.std.specs.Prelude.{◌≡◌, ◌<◌, MatchBool};
ghost use Rattle.drive.specs.Views.{Wrote, slot_count, zero_slot};
ghost use Rattle.journal.specs.Wipes.{Wiped, belongs, holds_one};

use crate::record::Head;
use drive::{Drive, SLOT_BYTES};
use std::ops::{Range, RangeBounds};

// Whether a record is one of the run, and of so many slots lies in that one.
fn belongs_in(number: u64, slots: u32, run: &Range<u64>, slot: u32) -> bool
    requires { 0 < slots }
    ensures { result ≡ belongs slots run.now.start run.now.end slot number }
{
    run.contains(&number) && number % u64::from(slots) == u64::from(slot)
}

// Zeroes one slot, unless it holds a record of the run.
fn wipe_slot<D: Drive>(drive: &mut D, slot: u32, run: &Range<u64>, buffer: &mut [u8; SLOT_BYTES])
    requires { slot < slot_count (D.meaning drive.old) }
    ensures { MatchBool (holds_one (D.meaning drive.old).current run.now.start run.now.end slot) (D.meaning drive.new ≡ D.meaning drive.old) (Wrote (D.meaning drive.old) slot zero_slot (D.meaning drive.new)) }
{
    let _ = drive.read(slot, buffer);
    let head = Head::read_from(buffer);
    if !belongs_in(head.number, drive.slots(), run, slot) {
        let _ = drive.write(slot, &[0; SLOT_BYTES]);
    }
}

// Zeroes every slot that does not hold one of the records from `from` up to, and without, `upto`.
#[tactic(auto, using(crate::proofs::Wiping::wiped_none, crate::proofs::Wiping::wiped_more))]
pub fn wipe<D: Drive>(drive: &mut D, from: u64, upto: u64)
    ensures { Wiped (D.meaning drive.old) from upto (D.meaning drive.new) }
{
    let run = from..upto;
    let mut buffer = [0; SLOT_BYTES];
    for slot in 0..drive.slots() {
        wipe_slot(drive, slot, &run, &mut buffer);
    }
}
