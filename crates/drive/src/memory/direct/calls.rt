// The calls of a direct drive.
ghost use Rattle.std.specs.Prelude.{◌≡◌, OnOk};
ghost use Rattle.drive.specs.Views.{Made, Read, Write, Cut, slot_count, flushed, blank, wrote_through, cut_by, bit};
ghost use Rattle.drive.specs.Held.{direct};
ghost use Rattle.std.proofs.Common.{rules};

use super::DirectDrive;
use crate::memory::zeros;
use crate::{Drive, DriveFault, MakeFault, SLOT_BYTES};
use std::alloc::Global;

impl DirectDrive {
    // A blank drive of that many slots, which takes all its memory here.
    pub fn new(heap: Global, slots: u32) -> Result<DirectDrive, MakeFault>
        ensures { Made slots direct result }
    {
        let slots = zeros(heap, slots)?;
        Ok(DirectDrive { slots })
    }
}

impl Drive for DirectDrive {
    ghost meaning = { direct };

    ghost shaped = { Prim.search rules };

    fn slots(&self) -> u32 {
        self.slots.count()
    }

    fn read(&self, slot: u32, out: &mut [u8; SLOT_BYTES]) -> Result<(), DriveFault> {
        self.slots.read(slot, out)
    }

    #[tactic(auto, using(crate::proofs::Drives::wrote_safe))]
    fn write(&mut self, slot: u32, bytes: &[u8; SLOT_BYTES]) -> Result<(), DriveFault>
        ensures write { Write (direct self.old) slot bytes.now result (direct self.new) }
        ensures settles { OnOk result (direct self.new ≡ wrote_through (direct self.old) slot bytes.now) }
    {
        self.slots.write(slot, bytes)
    }

    fn flush(&mut self) {}

    #[tactic(auto, using(crate::proofs::Drives::cut_safe, crate::proofs::Drives::cut_stays))]
    fn cut(&mut self, kept: u64)
        ensures cut { Cut (direct self.old) (direct self.new) }
        ensures settles { direct self.new ≡ cut_by (bit kept) (direct self.old) }
    {}

    fn blank(&mut self) {
        self.slots.zero();
    }
}
