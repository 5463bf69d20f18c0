// The calls that lines ask for, and their words.
use crate::list::ByteList;

// The first word of a line.
#[derive(Clone, Copy, PartialEq, Eq, Debug)]
pub enum Verb {
    Make,
    Write,
    Read,
    Flush,
    Seal,
    Poll,
    Checkpoint,
    Clean,
    Reap,
    Cut,
    Mount,
}

// The kind of an object store.
#[derive(Clone, Copy, PartialEq, Eq, Debug)]
pub enum StoreKind {
    Paged,
    Packed,
}

// The kind of a log drive.
#[derive(Clone, Copy, PartialEq, Eq, Debug)]
pub enum DriveKind {
    Buffered,
    Direct,
}

// What becomes of the log drive at a power cut.
#[derive(Clone, Copy, PartialEq, Eq, Debug)]
pub enum Fate {
    Kept,
    Lost,
}

// A call, with its items.
#[derive(Clone, Copy)]
pub enum Call<'a> {
    Make {
        blocks: u32,
        slots: u32,
        store: StoreKind,
        drive: DriveKind,
    },
    Write {
        address: u32,
        fill: ByteList<'a>,
    },
    Read {
        address: u32,
        count: u32,
    },
    Flush,
    Seal,
    Poll,
    Checkpoint,
    Clean {
        object: u32,
    },
    Reap,
    // A cut is two calls, since a lost drive has no number of its own; a number that may be absent would hide which word was written.
    CutKept {
        store: u32,
        drive: u32,
    },
    CutLost {
        store: u32,
    },
    Mount,
}

// A line that asks for no call: `at` is where the first part stands that does not fit.
#[derive(Clone, Copy, PartialEq, Eq, Debug)]
pub struct Bad {
    pub at: usize,
}
