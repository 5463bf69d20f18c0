// Why a store refuses a call, and why a store cannot be made.
ghost use Rattle.std.specs.Prelude.{◌≡◌, Some};
ghost use Rattle.store.specs.declared.fault.MakeFault.TheVariants.{Memory};
ghost use Rattle.store.specs.Calls.{fault_number};
ghost use Rattle.store.specs.Words.{fault_words, make_words};

use std::alloc::AllocError;
use std::error::Error;
use std::fmt;

// Each refusal, with the number that it is known by.
#[derive(Clone, Copy, PartialEq, Eq, Debug)]
pub enum StoreFault {
    // The object's length is not 1 to 16,664.
    Length = 1,
    // The number is 0, landed or pending.
    Taken = 2,
    // Eight puts are pending.
    Crowded = 3,
    // All weights together would exceed the capacity.
    Full = 4,
    // No such object has landed.
    Absent = 5,
    // The part passes the object's end.
    PastEnd = 6,
}

impl From<StoreFault> for u8 {
    ghost from_gives = { λ fault number. number ≡ fault_number fault };

    fn from(fault: StoreFault) -> u8 {
        fault as u8
    }
}

impl fmt::Display for StoreFault {
    ghost output = { λ fault. Some (fault_words fault) };

    fn fmt<W: fmt::Write>(&self, f: &mut fmt::Formatter<W>) -> fmt::Result {
        match *self {
            StoreFault::Length => write!(f, "wrong length"),
            StoreFault::Taken => write!(f, "number taken"),
            StoreFault::Crowded => write!(f, "too many pending"),
            StoreFault::Full => write!(f, "store full"),
            StoreFault::Absent => write!(f, "no such object"),
            StoreFault::PastEnd => write!(f, "past the end"),
        }
    }
}

impl Error for StoreFault {}

#[derive(Clone, Copy, PartialEq, Eq, Debug)]
pub enum MakeFault {
    // The capacity is out of range.
    Range,
    // There is not enough memory.
    Memory,
}

impl From<AllocError> for MakeFault {
    ghost from_gives = { λ _ r. r ≡ Memory };

    fn from(_e: AllocError) -> MakeFault {
        Self::Memory
    }
}

impl fmt::Display for MakeFault {
    ghost output = { λ fault. Some (make_words fault) };

    fn fmt<W: fmt::Write>(&self, f: &mut fmt::Formatter<W>) -> fmt::Result {
        match *self {
            MakeFault::Range => write!(f, "out of range"),
            MakeFault::Memory => write!(f, "no memory"),
        }
    }
}

impl Error for MakeFault {}
