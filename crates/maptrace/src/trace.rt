// The two maps that a trace keeps.
use extents::{Extent, Place, PlaceMap, Record, RecordMap};

mod calls;
mod texts;

pub use calls::mapped;

// How many blocks the maps are for.
pub const BLOCKS: u32 = 1024;

// A map of blocks to places, and one of blocks to records.
#[derive(Drop)]
pub struct Trace {
    pub places: PlaceMap,
    pub records: RecordMap,
}

// What a command that was not refused did.
#[derive(Clone, Copy, PartialEq, Eq, Debug)]
pub enum Outcome {
    // Blocks got places.
    Inserted(Extent<Place>),
    // Blocks got records.
    Recorded(Extent<Record>),
    // The records below one were taken away.
    Dropped(Record),
    // A block has a place or not, and a record or not.
    Found(u32, Option<Place>, Option<Record>),
}
