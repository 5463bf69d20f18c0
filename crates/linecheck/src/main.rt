// Reads command lines from standard input, and prints for each the call that it asks for, or that it is bad and where.
#![tactic(auto)]

use answers::Answer;
use commands::call::Call;
use commands::list::ByteList;
use commands::token::reader::parse;
use lines::buffer::LineBuffer;
use std::io;
use std::io::{BufReader, BufWriter, Read, Write};

// Prints the bytes of a list, one by one.
fn print_bytes<W: Write>(out: &mut W, list: ByteList) -> io::Result<()> {
    let count = list.len();
    write!(out, " fills {count}:")?;
    for b in list {
        write!(out, " {b}")?;
    }
    Ok(())
}

// Prints what one line asks for.
fn print_line<W: Write>(out: &mut W, number: u64, line: &[u8]) -> io::Result<()> {
    match parse(line) {
        Ok(call) => {
            write!(out, "{number} {call}")?;
            if let Call::Write { address: _, fill } = call {
                print_bytes(out, fill)?;
            }
            writeln!(out, "")
        }
        Err(bad) => {
            let at = bad.at;
            writeln!(out, "{number} bad at {at}")
        }
    }
}

fn main(rt: HostRuntime) -> io::Result<()> {
    let input = BufReader::new(rt.alloc(), rt.stdin())?;
    let mut out = BufWriter::new(rt.alloc(), rt.stdout())?;
    let mut line = LineBuffer::new();
    let mut number = 1u64;
    for byte in input.bytes() {
        match byte? {
            b'\n' => {
                print_line(&mut out, number, line.line())?;
                line.clear();
                number = number.saturating_add(1);
            }
            byte => line.push(byte),
        }
    }
    if !line.line().is_empty() {
        print_line(&mut out, number, line.line())?;
        number = number.saturating_add(1);
    }
    let lines = [number.saturating_sub(1)];
    let last = Answer {
        line: number,
        outcome: Ok(&lines),
    };
    writeln!(out, "{last}")?;
    out.flush()
}
