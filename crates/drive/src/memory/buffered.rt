// A drive that makes nothing safe before a flush.
ghost use Rattle.std.specs.Prelude.{◌≡◌, length};

use super::Area;

pub mod calls;

// The current slots, and beside each what a cut would leave of it.
#[derive(Drop)]
pub struct BufferedDrive {
    current: Area,
    safe: Area,
    ghost even: { length safe.slots.items ≡ length current.slots.items },
}
