// Prints calls as they are written. The kinds of store and drive each print their own words.
ghost use Rattle.std.specs.Prelude.{◌≡◌, [], IfOk, Some, string_bytes};
ghost use Rattle.commands.specs.Grammar.{listed};
ghost use Rattle.commands.specs.Values.{values};
ghost use Rattle.commands.specs.Calls.{store_word, drive_word, asked, written};

use crate::call::{Call, DriveKind, StoreKind};
use crate::list::ByteList;
use std::alloc::{AllocError, Global};
use std::fmt;
use std::str::from_utf8;

impl fmt::Display for StoreKind {
    ghost output = { λ x. Some (store_word x) };

    fn fmt<W: fmt::Write>(&self, f: &mut fmt::Formatter<W>) -> fmt::Result {
        match *self {
            StoreKind::Paged => write!(f, "paged"),
            StoreKind::Packed => write!(f, "packed"),
        }
    }
}

impl fmt::Display for DriveKind {
    ghost output = { λ x. Some (drive_word x) };

    fn fmt<W: fmt::Write>(&self, f: &mut fmt::Formatter<W>) -> fmt::Result {
        match *self {
            DriveKind::Buffered => write!(f, "buffered"),
            DriveKind::Direct => write!(f, "direct"),
        }
    }
}

impl fmt::Display for ByteList<'_> {
    ghost output = { λ x. Some (listed (values x.text.now) []) };

    fn fmt<W: fmt::Write>(&self, f: &mut fmt::Formatter<W>) -> fmt::Result {
        match from_utf8(self.text) {
            Ok(text) => f.write_str(text),
            Err(_) => Err(fmt::Error),
        }
    }
}

impl fmt::Display for Call<'_> {
    ghost output = { λ x. Some (written (asked x)) };

    fn fmt<W: fmt::Write>(&self, f: &mut fmt::Formatter<W>) -> fmt::Result {
        match *self {
            Call::Make {
                blocks,
                slots,
                store,
                drive,
            } => write!(f, "(make {blocks} {slots} {store} {drive})"),
            Call::Write { address, fill } => write!(f, "(write {address} ({fill}))"),
            Call::Read { address, count } => write!(f, "(read {address} {count})"),
            Call::Flush => write!(f, "(flush)"),
            Call::Seal => write!(f, "(seal)"),
            Call::Poll => write!(f, "(poll)"),
            Call::Checkpoint => write!(f, "(checkpoint)"),
            Call::Clean { object } => write!(f, "(clean {object})"),
            Call::Reap => write!(f, "(reap)"),
            Call::CutKept { store, drive } => write!(f, "(cut kept {store} {drive})"),
            Call::CutLost { store } => write!(f, "(cut lost {store})"),
            Call::Mount => write!(f, "(mount)"),
        }
    }
}

// Prints the call. Reading what is printed gives the call back.
pub fn print_call(heap: Global, call: &Call) -> Result<String, AllocError>
    ensures { IfOk result (λ s. string_bytes s ≡ written (asked call.now)) }
{
    format!(in heap; "{call}")
}
