// How a line writes a command.
ghost use Rattle.std.specs.Prelude.{◌≡◌};
ghost use Rattle.std.specs.Option.{option_map};
ghost use Rattle.extents.specs.Kinds.{recorded};
ghost use Rattle.maptrace.specs.Commands.{first_number, only_number, insert_of, record_of, asked};

use super::{cut, number};
use crate::command::Command;
use extents::{Extent, Place, Record};

// The number that the text begins with, and what follows its space.
fn first<'a>(s: Option<&'a [u8]>) -> Option<(u32, Option<&'a [u8]>)>
    ensures { option_map (λ p. (p.0, option_map (λ t. t.now) p.1)) result ≡ first_number (option_map (λ t. t.now) s.entry) }
{
    let (w, rest) = cut(s?);
    let n = number(w)?;
    Some((n, rest))
}

// The number that the text is.
fn only(s: Option<&[u8]>) -> Option<u32>
    ensures { result ≡ only_number (option_map (λ t. t.now) s.entry) }
{
    let (n, rest) = first(s)?;
    if rest.is_some() { None } else { Some(n) }
}

// The record whose number the text is.
fn record(s: Option<&[u8]>) -> Option<Record>
    ensures { result ≡ option_map recorded (only_number (option_map (λ t. t.now) s.entry)) }
{
    let number = u64::from(only(s)?);
    Some(Record { number })
}

// The four numbers of an insertion.
fn insertion(s: Option<&[u8]>) -> Option<Command>
    ensures { result ≡ insert_of (option_map (λ t. t.now) s.entry) }
{
    let (start, s) = first(s)?;
    let (length, s) = first(s)?;
    let (object, s) = first(s)?;
    let offset = only(s)?;
    Some(Command::Insert(Extent {
        first: start,
        length,
        target: Place { object, offset },
    }))
}

// The three numbers of a run of records.
fn recording(s: Option<&[u8]>) -> Option<Command>
    ensures { result ≡ record_of (option_map (λ t. t.now) s.entry) }
{
    let (start, s) = first(s)?;
    let (length, s) = first(s)?;
    let target = record(s)?;
    Some(Command::Record(Extent {
        first: start,
        length,
        target,
    }))
}

// What a line asks for, if it is a command.
pub fn parse(line: &[u8]) -> Option<Command>
    ensures { result ≡ asked line.now }
{
    let (verb, rest) = cut(line);
    if verb == b"insert".as_slice() {
        insertion(rest)
    } else if verb == b"record".as_slice() {
        recording(rest)
    } else if verb == b"drop".as_slice() {
        Some(Command::Drop(record(rest)?))
    } else if verb == b"lookup".as_slice() {
        Some(Command::Lookup(only(rest)?))
    } else {
        None
    }
}
