// The calls of a buffered drive.
ghost use Rattle.std.specs.Prelude.{◌≡◌, OnOk};
ghost use Rattle.drive.specs.Views.{Made, Read, Write, Cut, slot_count, flushed, blank, wrote_current, cut_by, bit};
ghost use Rattle.drive.specs.Held.{buffered};
ghost use Rattle.std.proofs.Common.{rules};

use super::BufferedDrive;
use crate::memory::zeros;
use crate::{Drive, DriveFault, MakeFault, SLOT_BYTES};
use std::alloc::Global;

impl BufferedDrive {
    // A blank drive of that many slots, which takes all its memory here.
    pub fn new(heap: Global, slots: u32) -> Result<BufferedDrive, MakeFault>
        ensures { Made slots buffered result }
    {
        let current = zeros(heap, slots)?;
        let safe = zeros(heap, slots)?;
        Ok(BufferedDrive { current, safe })
    }
}

impl Drive for BufferedDrive {
    ghost meaning = { buffered };

    ghost shaped = { Prim.search rules };

    fn slots(&self) -> u32 {
        self.current.count()
    }

    fn read(&self, slot: u32, out: &mut [u8; SLOT_BYTES]) -> Result<(), DriveFault> {
        self.current.read(slot, out)
    }

    #[tactic(auto, using(crate::proofs::Drives::wrote_kept))]
    fn write(&mut self, slot: u32, bytes: &[u8; SLOT_BYTES]) -> Result<(), DriveFault>
        ensures write { Write (buffered self.old) slot bytes.now result (buffered self.new) }
        ensures settles { OnOk result (buffered self.new ≡ wrote_current (buffered self.old) slot bytes.now) }
    {
        self.current.write(slot, bytes)
    }

    fn flush(&mut self) {
        self.safe.copy(&self.current);
    }

    fn cut(&mut self, kept: u64)
        ensures cut { Cut (buffered self.old) (buffered self.new) }
        ensures settles { buffered self.new ≡ cut_by (bit kept) (buffered self.old) }
    {
        self.safe.keep(&self.current, kept);
        self.current.copy(&self.safe);
    }

    fn blank(&mut self) {
        self.current.zero();
        self.safe.zero();
    }
}
