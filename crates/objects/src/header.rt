// The header of an object: 24 bytes.

// What the first 24 bytes of an object say.
#[derive(Clone, Copy, PartialEq, Eq, Debug)]
pub struct Header {
    // A number and no `Kind`, since any 24 bytes say a header.
    pub kind: u32,
    pub number: u32,
    pub first: u64,
    pub entries: u32,
    pub tally: u32,
}
