// A log drive: numbered slots of bytes that can be written, flushed and cut off by a loss of power.
#![tactic(auto)]

ghost use Rattle.std.specs.Prelude.{◌≡◌, Some};
ghost use Rattle.drive.specs.Views.{DriveView, Shaped, Read, Write, Cut, slot_count, flushed, blank, fault_number, make_number, make_text};
ghost use Rattle.drive.specs.declared.MakeFault.TheVariants.{NoMemory};

use std::alloc::AllocError;
use std::error::Error;
use std::fmt;

mod memory;

pub use memory::buffered::BufferedDrive;
pub use memory::direct::DirectDrive;

// How many bytes a slot has.
pub const SLOT_BYTES: usize = 528;

// Why a call of a drive is refused, by its number.
#[derive(Clone, Copy, PartialEq, Eq, Debug)]
pub enum DriveFault {
    NoSuchSlot = 1,
}

// The number of such a refusal.
impl From<DriveFault> for u32 {
    ghost from_gives = { λ fault number. number ≡ fault_number fault };

    fn from(fault: DriveFault) -> u32 {
        fault as u32
    }
}

// Why a drive is not made, by its number.
#[derive(Clone, Copy, PartialEq, Eq, Debug)]
pub enum MakeFault {
    NoSlots = 1,
    NoMemory = 2,
}

// The number of such a refusal.
impl From<MakeFault> for u32 {
    ghost from_gives = { λ fault number. number ≡ make_number fault };

    fn from(fault: MakeFault) -> u32 {
        fault as u32
    }
}

// What a program says where it has no drive.
impl fmt::Display for MakeFault {
    ghost output = { λ fault. Some (make_text fault) };

    fn fmt<W: fmt::Write>(&self, f: &mut fmt::Formatter<W>) -> fmt::Result {
        match self {
            Self::NoSlots => write!(f, "a drive of no slots"),
            Self::NoMemory => write!(f, "no memory for a drive"),
        }
    }
}

impl Error for MakeFault {}

// Want of memory is the one error of making a list of slots.
impl From<AllocError> for MakeFault {
    ghost from_gives = { λ _ fault. fault ≡ NoMemory };

    fn from(_error: AllocError) -> MakeFault {
        MakeFault::NoMemory
    }
}

// A drive means two lists of slots: what they read as now, and what a cut is sure to leave.
pub trait Drive {
    ghost meaning: { Self → DriveView };

    // How many slots there are.
    fn slots(&self) -> u32
        ensures { result ≡ slot_count (meaning self.now) };

    // Copies a slot's current bytes.
    fn read(&self, slot: u32, out: &mut [u8; SLOT_BYTES]) -> Result<(), DriveFault>
        ensures { Read (meaning self.now) slot out.old result out.new };

    // Changes a slot's current bytes.
    fn write(&mut self, slot: u32, bytes: &[u8; SLOT_BYTES]) -> Result<(), DriveFault>
        ensures { Write (meaning self.old) slot bytes.now result (meaning self.new) };

    // Makes all current bytes safe.
    fn flush(&mut self)
        ensures { meaning self.new ≡ flushed (meaning self.old) };

    // Loses power: each slot keeps its current bytes or falls back to its safe ones.
    fn cut(&mut self, kept: u64)
        ensures { Cut (meaning self.old) (meaning self.new) };

    // Zeroes all slots, safely.
    fn blank(&mut self)
        ensures { meaning self.new ≡ blank (slot_count (meaning self.old)) };

    ghost shaped: { (d : Self) → Shaped (meaning d) };
}
