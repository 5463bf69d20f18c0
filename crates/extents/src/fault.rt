// Why a map refuses a call.
ghost use Rattle.std.specs.Prelude.{◌≡◌, Some};
ghost use Rattle.extents.specs.Faults.{fault_number, fault_text};
ghost use Rattle.extents.specs.declared.fault.MapFault.TheVariants.{NoMemory};

use std::alloc::AllocError;
use std::error::Error;
use std::fmt;

#[derive(Clone, Copy, PartialEq, Eq, Debug)]
pub enum MapFault {
    // A map of no blocks is asked for.
    NoBlocks = 1,
    // There is no memory for the map's room.
    NoMemory = 2,
    // The extent has no block.
    Empty = 3,
    // The extent passes the map's last block.
    OutOfRange = 4,
    // The target of the extent's last block does not fit its width.
    TooWide = 5,
    // The extent overlaps, precedes or goes on from the table's last.
    Disorder = 6,
}

// The refusal's number.
impl From<MapFault> for u32 {
    ghost from_gives = { λ f n. n ≡ fault_number f };

    fn from(f: MapFault) -> u32 {
        f as u32
    }
}

impl From<AllocError> for MapFault {
    ghost from_gives = { λ _ f. f ≡ NoMemory };

    fn from(_e: AllocError) -> MapFault {
        Self::NoMemory
    }
}

// What the refusal means.
impl fmt::Display for MapFault {
    ghost output = { λ f. Some (fault_text f) };

    fn fmt<W: fmt::Write>(&self, f: &mut fmt::Formatter<W>) -> fmt::Result {
        match self {
            MapFault::NoBlocks => write!(f, "the map has no block"),
            MapFault::NoMemory => write!(f, "memory is short"),
            MapFault::Empty => write!(f, "the length is 0"),
            MapFault::OutOfRange => write!(f, "it passes the last block"),
            MapFault::TooWide => write!(f, "its last target does not fit"),
            MapFault::Disorder => write!(f, "the table would be no table"),
        }
    }
}

impl Error for MapFault {}
