// The commands, and how a line writes one.
use extents::{Extent, Place, Record};

// What a line asks for.
#[derive(Clone, Copy, PartialEq, Eq, Debug)]
pub enum Command {
    // `insert FIRST LENGTH OBJECT OFFSET`: blocks get the places from an offset in an object on.
    Insert(Extent<Place>),
    // `record FIRST LENGTH NUMBER`: blocks get the records from a number on.
    Record(Extent<Record>),
    // `drop NUMBER`: the records below a number are taken away.
    Drop(Record),
    // `lookup BLOCK`: a block's place and record.
    Lookup(u32),
}
