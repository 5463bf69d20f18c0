// The journal: records in the slots of a log drive.
#![tactic(auto)]

ghost use Rattle.std.specs.Prelude.{◌≡◌, ◌+◌, ◌^◌, ◌<◌, ◌≤◌};
ghost use Rattle.journal.specs.Fills.{nth_head};

pub mod found;
pub mod record;
pub mod span;
pub mod wipe;

use crate::record::Head;

// The last record from which a scan or a write may start.
pub const LAST_RECORD: u64 = 1 << 41;

// The most blocks that a write covers.
pub const MOST_BLOCKS: u16 = 8;

// A write, by the head that it begins with: the numbers and addresses of all its records fit their fields.
#[derive(Clone, Copy)]
struct Write {
    first: Head,
    ghost numbers: { first.number + first.count ≤ 2 ^ 64 },
    ghost addresses: { first.address + first.count ≤ 2 ^ 32 },
}

impl Write {
    // The head of block i of the write.
    fn head(&self, i: u16) -> Head
        requires { i < self.now.first.count }
        ensures { result ≡ nth_head self.now.first.number self.now.first.address self.now.first.count i }
    {
        Head {
            number: self.first.number + u64::from(i),
            address: self.first.address + u32::from(i),
            index: i,
            count: self.first.count,
        }
    }
}
