// Builds, reads, breaks and applies objects of each kind, and shows what comes of it.
#![tactic(auto)]

use extents::{Extent, Place, PlaceMap};
use objects::{Carrier, Closed, Entry, Numbers, apply, read};
use std::io::{BufWriter, Write};
use std::{fmt, io, mem};

const ROOM: usize = 16664;

// What an object that carries blocks is built of: payload block i, from 0, is filled with the byte i + 1.
#[derive(Clone, Copy)]
struct Plan {
    carrier: Carrier,
    first: u64,
    blocks: u32,
    total: u8,
}

// Builds an object of the entries and puts it, and answers its bytes; one that is refused is withdrawn.
fn carry<'a>(
    buf: &'a mut [u8],
    numbers: &mut Numbers,
    plan: Plan,
    entries: &[Entry],
) -> Option<&'a [u8]> {
    let mut begun = numbers.take()?.begin(plan.carrier, plan.first, plan.blocks);
    for entry in entries {
        begun = begun.add(buf, *entry).unwrap_or_else(|refused| refused);
    }
    let mut filled = begun.fill();
    for i in 0..plan.total {
        let block = [i.wrapping_add(1); 512];
        filled = filled.add(buf, &block).unwrap_or_else(|refused| refused);
    }
    match filled.close(buf) {
        Ok(closed) => Some(put(closed, buf)),
        Err(open) => {
            open.withdraw(numbers);
            None
        }
    }
}

// Builds a checkpoint of the table and puts it, and answers its bytes; one that is refused is withdrawn.
fn check<'a>(
    buf: &'a mut [u8],
    numbers: &mut Numbers,
    first: u64,
    table: &[Extent<Place>],
    blocks: u32,
) -> Option<&'a [u8]> {
    match numbers.take()?.checkpoint(buf, first, table, blocks) {
        Ok(closed) => Some(put(closed, buf)),
        Err(token) => {
            token.withdraw(numbers);
            None
        }
    }
}

// Puts an object that is closed, and answers its bytes.
fn put(closed: Closed, buf: &[u8]) -> &[u8] {
    let bytes = closed.bytes(buf);
    let _number = closed.put();
    bytes
}

// A byte, and how often it stands there.
#[derive(Clone, Copy)]
struct Run {
    byte: u8,
    count: u32,
}

impl fmt::Display for Run {
    fn fmt<W: fmt::Write>(&self, f: &mut fmt::Formatter<W>) -> fmt::Result {
        let Run { byte, count } = *self;
        if count == 1 {
            write!(f, " {byte}")
        } else {
            write!(f, " {byte}x{count}")
        }
    }
}

// Bytes in decimal, equal ones together.
fn show<W: Write>(out: &mut W, bytes: &[u8]) -> io::Result<()> {
    let Some((first, rest)) = bytes.split_first() else {
        return writeln!(out, "");
    };
    let mut run = Run {
        byte: *first,
        count: 1,
    };
    for byte in rest {
        if *byte == run.byte {
            run.count = run.count.saturating_add(1);
        } else {
            write!(out, "{run}")?;
            run = Run {
                byte: *byte,
                count: 1,
            };
        }
    }
    writeln!(out, "{run}")
}

// Bytes that are read under a name, on a disk of so many blocks.
#[derive(Clone, Copy)]
struct Case<'a> {
    label: &'a str,
    bytes: &'a [u8],
    name: u32,
    blocks: u32,
}

impl<'a> Case<'a> {
    // The same bytes under another name.
    fn named(self, label: &'a str, name: u32) -> Case<'a> {
        Case {
            label,
            name,
            ..self
        }
    }

    // The same bytes on a disk of another size.
    fn on(self, label: &'a str, blocks: u32) -> Case<'a> {
        Case {
            label,
            blocks,
            ..self
        }
    }

    // Other bytes under the same name.
    fn of(self, label: &'a str, bytes: &'a [u8]) -> Case<'a> {
        Case {
            label,
            bytes,
            ..self
        }
    }

    // What reading answers.
    fn tell<W: Write>(&self, out: &mut W) -> io::Result<()> {
        let label = self.label;
        match read(self.bytes, self.name, self.blocks) {
            Ok(header) => {
                let kind = header.kind;
                let first = header.first;
                let entries = header.entries;
                let tally = header.tally;
                writeln!(
                    out,
                    "{label}: kind {kind}, first record {first}, entries {entries}, tally {tally}"
                )
            }
            Err(_) => writeln!(out, "{label}: damaged"),
        }
    }

    // The bytes, and what reading them answers.
    fn show<W: Write>(&self, out: &mut W) -> io::Result<()> {
        let Case { label, bytes, .. } = *self;
        let size = bytes.len();
        writeln!(out, "{label}, {size} bytes:")?;
        if size <= 4096 {
            show(out, bytes)?;
        } else {
            show(out, &bytes[0..56])?;
            show(out, &bytes[size - 600..size])?;
        }
        self.tell(out)
    }
}

// The bytes of an object that was built, and what reading them answers.
fn vector<W: Write>(
    out: &mut W,
    label: &str,
    object: Option<&[u8]>,
    name: u32,
    blocks: u32,
) -> io::Result<()> {
    match object {
        Some(bytes) => Case {
            label,
            bytes,
            name,
            blocks,
        }
        .show(out),
        None => writeln!(out, "{label}: no such object"),
    }
}

// What reading answers where the byte at a place has another value, for each place and value.
fn tell_changes<W: Write>(
    out: &mut W,
    bytes: &mut [u8],
    name: u32,
    changes: &[(usize, u8)],
) -> io::Result<()> {
    for (at, value) in changes {
        let Some(byte) = bytes.get_mut(*at) else {
            return writeln!(out, "no byte {at}");
        };
        let old = mem::replace(byte, *value);
        write!(out, "byte {at} is {value}, ")?;
        let case = Case {
            label: "read",
            bytes,
            name,
            blocks: 8,
        };
        case.tell(out)?;
        bytes[*at] = old;
    }
    Ok(())
}

// So many blocks from an address on.
fn entry(address: u32, count: u32) -> Entry {
    Entry { address, count }
}

// An extent of places.
fn extent(first: u32, length: u32, object: u32, offset: u32) -> Extent<Place> {
    Extent {
        first,
        length,
        target: Place { object, offset },
    }
}

// Objects of a kind that carries blocks: the smallest, one in between, and the largest.
fn carriers<W: Write>(out: &mut W, buf: &mut [u8], carrier: Carrier, few: u32) -> io::Result<()> {
    let mut numbers = Numbers::after(1);
    let small = Plan {
        carrier,
        first: 0,
        blocks: 8,
        total: 1,
    };
    let object = carry(buf, &mut numbers, small, &[entry(2, 1)]);
    vector(out, "smallest", object, 2, 8)?;
    let middle = Plan {
        carrier,
        first: 258,
        blocks: 40,
        total: 11,
    };
    let object = carry(buf, &mut numbers, middle, &[entry(0, few), entry(37, 3)]);
    vector(out, "in between", object, 3, 40)?;
    let mut last = Numbers::after(u32::MAX - 1);
    let large = Plan {
        carrier,
        first: u64::MAX,
        blocks: 1024,
        total: 32,
    };
    let object = carry(buf, &mut last, large, &[entry(1023, 1); 32]);
    vector(out, "largest", object, u32::MAX, 1024)
}

// Checkpoints: the smallest, one in between, and the largest.
fn checkpoints<W: Write>(out: &mut W, buf: &mut [u8]) -> io::Result<()> {
    let mut numbers = Numbers::after(0);
    let object = check(buf, &mut numbers, 0, &[], 8);
    vector(out, "smallest", object, 1, 8)?;
    let mut numbers = Numbers::after(4);
    let table = [extent(0, 2, 1, 24), extent(4, 1, 2, 40)];
    let object = check(buf, &mut numbers, 7, &table, 8);
    vector(out, "in between", object, 5, 8)?;
    // Extents of one block each, one after another, and none to be joined.
    let mut table = [extent(0, 1, 1, 24); 1024];
    for (x, first) in table.iter_mut().zip(0..1024u32) {
        x.first = first;
    }
    let object = check(buf, &mut numbers, (1 << 40) - 1, &table, 1024);
    vector(out, "largest", object, 6, 1024)
}

// A data object as it was, then of another length, name or disk, and then with one byte changed after another.
fn broken_data<W: Write>(out: &mut W, buf: &mut [u8]) -> io::Result<()> {
    let mut numbers = Numbers::after(2);
    let plan = Plan {
        carrier: Carrier::Data,
        first: 5,
        blocks: 8,
        total: 5,
    };
    let object = carry(buf, &mut numbers, plan, &[entry(0, 2), entry(4, 3)]);
    let Some(size) = object.map(|bytes| bytes.len()) else {
        return writeln!(out, "no such object");
    };
    if size < 40 || size >= buf.len() {
        return writeln!(out, "no such object");
    }
    let all = &buf[..];
    let whole = Case {
        label: "as it was",
        bytes: &all[..size],
        name: 3,
        blocks: 8,
    };
    whole.tell(out)?;
    whole.named("another name", 4).tell(out)?;
    whole.on("a disk too small", 6).tell(out)?;
    whole.on("no disk", 0).tell(out)?;
    whole.on("a disk too large", 1025).tell(out)?;
    whole.of("a byte short", &all[..size - 1]).tell(out)?;
    whole.of("a byte long", &all[..size + 1]).tell(out)?;
    whole.of("no whole header", &all[0..23]).tell(out)?;
    break_data(out, &mut buf[..size])
}

// A data object with one byte changed after another.
fn break_data<W: Write>(out: &mut W, bytes: &mut [u8]) -> io::Result<()> {
    // The kind 0, 2, 3 and 4; and another number.
    tell_changes(out, bytes, 3, &[(0, 0), (0, 2), (0, 3), (0, 4), (4, 4)])?;
    // The number 0.
    tell_changes(out, bytes, 0, &[(4, 0)])?;
    // No entry, one less, and 33; another tally; another sum.
    tell_changes(
        out,
        bytes,
        3,
        &[(16, 0), (16, 1), (16, 33), (20, 4), (36, 2)],
    )?;
    // An empty entry, and one of nine blocks; an entry past the disk.
    tell_changes(out, bytes, 3, &[(28, 0), (28, 9), (32, 6)])
}

// A checkpoint as it was, then of another length or disk, and then with one byte changed after another.
fn broken_checkpoint<W: Write>(out: &mut W, buf: &mut [u8]) -> io::Result<()> {
    let mut numbers = Numbers::after(4);
    let table = [extent(0, 2, 1, 24), extent(2, 1, 2, 1048)];
    let object = check(buf, &mut numbers, 7, &table, 8);
    let Some(size) = object.map(|bytes| bytes.len()) else {
        return writeln!(out, "no such object");
    };
    if size < 56 || size >= buf.len() {
        return writeln!(out, "no such object");
    }
    let all = &buf[..];
    let whole = Case {
        label: "as it was",
        bytes: &all[..size],
        name: 5,
        blocks: 8,
    };
    whole.tell(out)?;
    whole.on("another disk", 9).tell(out)?;
    whole.of("a byte short", &all[..size - 1]).tell(out)?;
    whole.of("a byte long", &all[..size + 1]).tell(out)?;
    let bytes = &mut buf[..size];
    // The first record 2^40 + 7; an entry less; another tally.
    tell_changes(out, bytes, 5, &[(13, 1), (16, 1), (20, 9)])?;
    // An empty extent; one that overlaps; one out of order; one past the disk.
    tell_changes(out, bytes, 5, &[(28, 0), (28, 3), (24, 4), (40, 8)])?;
    // Object 0; the checkpoint's own number; an end past offset 65,536; two to be joined.
    tell_changes(out, bytes, 5, &[(32, 0), (48, 5), (54, 1), (48, 1)])
}

// What applying an object to a map makes of it, and of a count of 100 records.
fn tell_applied<W: Write>(
    out: &mut W,
    map: &mut PlaceMap,
    object: Option<&[u8]>,
    name: u32,
) -> io::Result<()> {
    let Some(bytes) = object else {
        return writeln!(out, "no such object");
    };
    match apply(bytes, name, map, 100) {
        Ok(count) => write!(out, "object {name}, {count} records:")?,
        Err(_) => write!(out, "object {name}, not applied:")?,
    }
    for e in map.extents() {
        let Extent {
            first,
            length,
            target: Place { object, offset },
        } = *e;
        write!(out, " ({first},{length},{object}@{offset})")?;
    }
    writeln!(out, "")
}

// A data object, a clean one over a part of it, a checkpoint, one for another disk, and a data object over the checkpoint's map.
fn applying<W: Write>(out: &mut W, map: &mut PlaceMap, buf: &mut [u8]) -> io::Result<()> {
    let mut numbers = Numbers::after(6);
    let data = Plan {
        carrier: Carrier::Data,
        first: 100,
        blocks: 8,
        total: 5,
    };
    let object = carry(buf, &mut numbers, data, &[entry(0, 4), entry(2, 1)]);
    tell_applied(out, map, object, 7)?;
    let clean = Plan {
        carrier: Carrier::Clean,
        first: 105,
        blocks: 8,
        total: 2,
    };
    let object = carry(buf, &mut numbers, clean, &[entry(1, 2)]);
    tell_applied(out, map, object, 8)?;
    let object = check(buf, &mut numbers, 7, &[extent(0, 6, 1, 24)], 8);
    tell_applied(out, map, object, 9)?;
    let object = check(buf, &mut numbers, 7, &[extent(0, 1, 1, 24)], 9);
    tell_applied(out, map, object, 10)?;
    let object = carry(buf, &mut numbers, data, &[entry(6, 2), entry(0, 3)]);
    tell_applied(out, map, object, 11)
}

fn main(rt: HostRuntime) -> io::Result<()> {
    let mut out = BufWriter::new(rt.alloc(), rt.stdout())?;
    let mut buf = [0u8; ROOM];
    writeln!(out, "data")?;
    carriers(&mut out, &mut buf, Carrier::Data, 8)?;
    writeln!(out, "clean")?;
    carriers(&mut out, &mut buf, Carrier::Clean, 8)?;
    writeln!(out, "checkpoint")?;
    checkpoints(&mut out, &mut buf)?;
    writeln!(out, "a data object, broken")?;
    broken_data(&mut out, &mut buf)?;
    writeln!(out, "a checkpoint, broken")?;
    broken_checkpoint(&mut out, &mut buf)?;
    writeln!(out, "applied")?;
    let Ok(mut map) = PlaceMap::with_room(rt.alloc(), 8) else {
        return writeln!(out, "no memory");
    };
    applying(&mut out, &mut map, &mut buf)?;
    out.flush()
}
