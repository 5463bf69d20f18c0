// Extent maps: which block of a disk has which target, kept as a table of extents.
#![tactic(auto)]

mod extent;
mod fault;
mod table;
mod target;
mod texts;
mod theorems;

pub use extent::Extent;
pub use fault::MapFault;
pub use table::{ExtentMap, PlaceMap, RecordMap};
pub use target::{Ordered, Place, Record, Target};
pub use theorems::{examples_hold, one_writing};
