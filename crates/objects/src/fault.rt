// Why an object is not applied.
ghost use Rattle.std.specs.Prelude.{◌≡◌, Some};
ghost use Rattle.objects.specs.declared.fault.ApplyFault.TheVariants.{Damaged};
ghost use Rattle.objects.specs.Faults.{apply_refusal, fault_text};

use crate::damaged;
use std::error::Error;
use std::fmt;

#[derive(Clone, Copy, PartialEq, Eq, Debug)]
pub enum ApplyFault {
    // The bytes are no undamaged object of the name.
    Damaged = 1,
    // The count of records would pass its width.
    TooManyRecords = 2,
}

// The refusal's number.
impl From<ApplyFault> for u32 {
    ghost from_gives = { λ fault number. number ≡ apply_refusal fault };

    fn from(fault: ApplyFault) -> u32 {
        fault as u32
    }
}

impl From<damaged::Damaged> for ApplyFault {
    ghost from_gives = { λ _ fault. fault ≡ Damaged };

    fn from(_damaged: damaged::Damaged) -> ApplyFault {
        ApplyFault::Damaged
    }
}

// What the refusal means.
impl fmt::Display for ApplyFault {
    ghost output = { λ fault. Some (fault_text fault) };

    fn fmt<W: fmt::Write>(&self, f: &mut fmt::Formatter<W>) -> fmt::Result {
        match self {
            Self::Damaged => write!(f, "the bytes are no such object"),
            Self::TooManyRecords => write!(f, "the count of records would pass its width"),
        }
    }
}

impl Error for ApplyFault {}
