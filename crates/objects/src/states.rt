// An object while it is built: the number that it has taken, and the stages that it goes through.
use crate::entry::Carrier;

pub mod building;
pub mod checkpoint;
pub mod numbering;

// The numbers that are given out: the last one taken.
#[derive(Drop)]
pub struct Numbers {
    last: u32,
}

// A number that was taken. It is not `Drop`: it is spent by putting the object or by withdrawing it, and cannot be forgotten.
pub struct NumberToken {
    number: u32,
}

// An object that is being built: its number, and how far it is.
pub struct Numbered<S> {
    token: NumberToken,
    stage: S,
}

// What an object says so far: its kind, first record, entries and blocks, and the size of its disk.
#[derive(Clone, Copy, PartialEq, Eq, Debug)]
pub struct Draft {
    carrier: Carrier,
    first: u64,
    blocks: u32,
    entries: u32,
    tally: u32,
}

// What an object with all its entries says, and how many payload blocks it has so far.
#[derive(Clone, Copy, PartialEq, Eq, Debug)]
pub struct Filling {
    draft: Draft,
    added: u32,
}

// How many bytes of the buffer a complete object has.
#[derive(Clone, Copy, PartialEq, Eq, Debug)]
pub struct Complete {
    length: usize,
}

// An object that is begun, to which entries are added.
pub type Begun = Numbered<Draft>;

// An object whose entries are complete, to which payload blocks are added.
pub type Filled = Numbered<Filling>;

// An object that is complete.
pub type Closed = Numbered<Complete>;
