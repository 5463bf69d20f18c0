// A drive that makes each write safe at once.
use super::Area;

pub mod calls;

// The slots, each of them safe.
#[derive(Drop)]
pub struct DirectDrive {
    slots: Area,
}
