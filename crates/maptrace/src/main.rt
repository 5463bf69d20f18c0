// Reads map commands from standard input, a line each, says what each did, and at the end shows the maps.
#![tactic(auto)]

use extents::{ExtentMap, Target};
use lines::{TooLong, next_line};
use std::fmt::Display;
use std::io;
use std::io::{BufReader, BufWriter, Read, Write};
use trace::{BLOCKS, Trace, mapped};
use words::parse;

mod command;
mod lines;
mod trace;
mod words;

// Shows a map: how many of its blocks are mapped, and its extents.
fn show<W: Write, T: Target + Display>(
    out: &mut W,
    name: &str,
    map: &ExtentMap<T>,
) -> io::Result<()> {
    let extents = map.count();
    let mapped = mapped(map);
    writeln!(
        out,
        "{name} map: {extents} extents, {mapped} of {BLOCKS} blocks mapped"
    )?;
    for e in map.extents() {
        writeln!(out, "  {e}")?;
    }
    Ok(())
}

// Does what a line asks for, and says so; a line that is no command changes nothing.
fn run_line<W: Write>(out: &mut W, trace: &mut Trace, number: u32, line: &[u8]) -> io::Result<()> {
    let Some(command) = parse(line) else {
        return writeln!(
            out,
            "{number}: bad line: neither 'insert FIRST LENGTH OBJECT OFFSET', 'record FIRST LENGTH NUMBER', 'drop NUMBER' nor 'lookup BLOCK'"
        );
    };
    match trace.apply(command) {
        Ok(outcome) => writeln!(out, "{number}: {outcome}"),
        Err(fault) => {
            let code = u32::from(fault);
            writeln!(out, "{number}: refused with {code}, {fault}")
        }
    }
}

// Runs every line, and shows the maps.
fn run<R: Read, W: Write>(input: &mut R, out: &mut W, mut trace: Trace) -> io::Result<()> {
    let mut line = [0u8; 255];
    for number in 1..u32::MAX {
        match next_line(input, &mut line)? {
            Some(Ok(n)) => run_line(out, &mut trace, number, &line[..n])?,
            Some(Err(TooLong)) => writeln!(out, "{number}: bad line: longer than 255 bytes")?,
            None => break,
        }
    }
    show(out, "place", &trace.places)?;
    show(out, "record", &trace.records)
}

fn main(rt: HostRuntime) -> io::Result<()> {
    let mut input = BufReader::new(rt.alloc(), rt.stdin())?;
    let mut out = BufWriter::new(rt.alloc(), rt.stdout())?;
    match Trace::new(rt.alloc()) {
        Ok(trace) => run(&mut input, &mut out, trace)?,
        Err(fault) => writeln!(out, "no maps: {fault}")?,
    }
    out.flush()
}
