// Writes that were found in a log.
ghost use Rattle.std.specs.Prelude.{◌≡◌};
ghost use Rattle.journal.specs.Writes.{scan_number};

// One write: the first of its blocks, and how many they are.
#[derive(Clone, Copy, PartialEq, Eq, Debug)]
pub struct Span {
    pub address: u32,
    pub count: u16,
}

// Why a scan is refused, by its number.
#[derive(Clone, Copy, PartialEq, Eq, Debug)]
pub enum ScanFault {
    TooFar = 1,
    NoRoom = 2,
}

// The number of such a refusal.
impl From<ScanFault> for u32 {
    ghost from_gives = { λ fault number. number ≡ scan_number fault };

    fn from(fault: ScanFault) -> u32 {
        fault as u32
    }
}
