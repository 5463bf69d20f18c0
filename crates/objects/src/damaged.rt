// What reading answers of bytes that are no object.
ghost use Rattle.std.specs.Prelude.{Some, codes};

use std::error::Error;
use std::fmt;

// The bytes are no undamaged object of the name.
#[derive(Clone, Copy, PartialEq, Eq, Debug)]
pub struct Damaged;

impl fmt::Display for Damaged {
    ghost output = { λ _. Some (codes "the bytes are no such object") };

    fn fmt<W: fmt::Write>(&self, f: &mut fmt::Formatter<W>) -> fmt::Result {
        write!(f, "the bytes are no such object")
    }
}

impl Error for Damaged {}
