// Logs made by hand, and what a scan finds in them.
#![tactic(auto)]

use drive::{BufferedDrive, DirectDrive, Drive, MakeFault, SLOT_BYTES};
use journal::found::Found;
use journal::found::scan::scan;
use journal::record::fill::write_records;
use journal::record::{BLOCK_BYTES, Head, Record};
use journal::wipe::wipe;
use std::io;

// Prints what a scan from a record on finds.
fn show<D: Drive>(
    rt: &HostRuntime,
    drive: &D,
    blocks: u32,
    from: u64,
    most: u64,
    found: &mut Found,
) -> io::Result<()> {
    print!(rt; "  scan of {blocks} blocks from {from}, at most {most}:")?;
    match scan(drive, blocks, from, most, found) {
        Ok(end) => {
            for span in found.spans() {
                print!(rt; " {}+{}", span.address, span.count)?;
            }
            println!(rt; " ends at {end}")?;
        }
        Err(fault) => println!(rt; " no {}", u32::from(fault))?,
    }
    Ok(())
}

// Writes some blocks of one byte, and prints how that went.
fn put<D: Drive>(
    rt: &HostRuntime,
    drive: &mut D,
    from: u64,
    address: u32,
    length: usize,
) -> io::Result<()> {
    let bytes = [7; 5000];
    let length = length.min(5000);
    print!(rt; "  write of {length} bytes at {address}, from {from}:")?;
    match write_records(drive, from, address, &bytes[..length]) {
        Ok(()) => println!(rt; " ok")?,
        Err(fault) => println!(rt; " no {}", u32::from(fault))?,
    }
    Ok(())
}

// Puts a record into a slot, whichever it belongs to.
fn poke<D: Drive>(rt: &HostRuntime, drive: &mut D, slot: u32, head: Head) -> io::Result<()> {
    let mut bytes = [0; SLOT_BYTES];
    let block = [9; BLOCK_BYTES];
    Record { head, block }.write_to(&mut bytes);
    match drive.write(slot, &bytes) {
        Ok(()) => println!(rt; "  slot {slot} poked")?,
        Err(_) => println!(rt; "  slot {slot} refused")?,
    }
    Ok(())
}

// Prints the record that a slot reads as.
fn peek<D: Drive>(rt: &HostRuntime, drive: &D, slot: u32) -> io::Result<()> {
    let mut bytes = [0; SLOT_BYTES];
    if drive.read(slot, &mut bytes).is_err() {
        println!(rt; "  slot {slot}: none")?;
        return Ok(());
    }
    let Record { head, block } = Record::read_from(&bytes);
    println!(rt;
        "  slot {slot}: record {} for {}, {} of {}, {}s",
        head.number, head.address, head.index, head.count, block[0]
    )
}

// The drive, if there is memory for it; else says that there is none.
fn held<D: Drop>(rt: &HostRuntime, drive: Result<D, MakeFault>) -> io::Result<Option<D>> {
    match drive {
        Ok(drive) => Ok(Some(drive)),
        Err(_) => {
            println!(rt; "no drive")?;
            Ok(None)
        }
    }
}

// Two whole writes, and a drive of zeros.
fn whole(rt: &HostRuntime) -> io::Result<()> {
    println!(rt; "whole")?;
    let mut found = Found::with_room(rt.alloc(), 16)?;
    let Some(mut drive) = held(rt, BufferedDrive::new(rt.alloc(), 16))? else {
        return Ok(());
    };
    show(rt, &drive, 8, 0, 16, &mut found)?;
    put(rt, &mut drive, 0, 2, 1024)?;
    put(rt, &mut drive, 2, 5, 1536)?;
    for from in [0, 2, 1, 5] {
        show(rt, &drive, 8, from, 16, &mut found)?;
    }
    Ok(())
}

// A write of two, and half of another.
fn torn(rt: &HostRuntime) -> io::Result<()> {
    println!(rt; "torn")?;
    let mut found = Found::with_room(rt.alloc(), 16)?;
    let Some(mut drive) = held(rt, BufferedDrive::new(rt.alloc(), 4))? else {
        return Ok(());
    };
    put(rt, &mut drive, 0, 2, 1024)?;
    poke(rt, &mut drive, 2, head(2, 5, 0, 2))?;
    show(rt, &drive, 8, 0, 4, &mut found)?;
    show(rt, &drive, 8, 2, 4, &mut found)?;
    poke(rt, &mut drive, 3, head(3, 6, 1, 2))?;
    show(rt, &drive, 8, 0, 4, &mut found)
}

// The end of the volume, the most records that may be taken, the room for writes, and the last record.
fn limits(rt: &HostRuntime) -> io::Result<()> {
    println!(rt; "limits")?;
    let mut found = Found::with_room(rt.alloc(), 4)?;
    let Some(mut drive) = held(rt, BufferedDrive::new(rt.alloc(), 16))? else {
        return Ok(());
    };
    put(rt, &mut drive, 0, 2, 1024)?;
    put(rt, &mut drive, 2, 5, 1536)?;
    let asked = [
        (8, 0, 4),
        (8, 0, 2),
        (8, 0, 1),
        (7, 2, 4),
        (8, 2, 4),
        (8, 0, 5),
        (8, 1 << 41, 4),
        (8, (1 << 41) + 1, 4),
    ];
    for (blocks, from, most) in asked {
        show(rt, &drive, blocks, from, most, &mut found)?;
    }
    Ok(())
}

// What a slot says of its record.
fn head(number: u64, address: u32, index: u16, count: u16) -> Head {
    Head {
        number,
        address,
        index,
        count,
    }
}

// A write of three one of whose slots says another count, index, address or number.
fn disagreeing(rt: &HostRuntime) -> io::Result<()> {
    println!(rt; "disagreeing")?;
    let mut found = Found::with_room(rt.alloc(), 16)?;
    let Some(mut drive) = held(rt, BufferedDrive::new(rt.alloc(), 16))? else {
        return Ok(());
    };
    let heads = [
        head(1, 4, 1, 3),
        head(1, 4, 1, 4),
        head(1, 4, 0, 3),
        head(1, 3, 1, 3),
        head(17, 4, 1, 3),
    ];
    put(rt, &mut drive, 0, 3, 1536)?;
    for head in heads {
        poke(rt, &mut drive, 1, head)?;
        show(rt, &drive, 8, 0, 16, &mut found)?;
    }
    poke(rt, &mut drive, 0, head(0, 3, 0, 9))?;
    show(rt, &drive, 64, 0, 16, &mut found)
}

// Records from a round of the drive before.
fn stale(rt: &HostRuntime) -> io::Result<()> {
    println!(rt; "stale")?;
    let mut found = Found::with_room(rt.alloc(), 4)?;
    let Some(mut drive) = held(rt, BufferedDrive::new(rt.alloc(), 4))? else {
        return Ok(());
    };
    put(rt, &mut drive, 0, 0, 1024)?;
    put(rt, &mut drive, 2, 0, 1024)?;
    put(rt, &mut drive, 4, 6, 512)?;
    for from in [4, 2, 0, 5] {
        show(rt, &drive, 8, from, 4, &mut found)?;
    }
    Ok(())
}

// Writes that pass the end of the drive; no more records are taken than there are slots.
fn wrapped(rt: &HostRuntime) -> io::Result<()> {
    println!(rt; "wrapped")?;
    let mut found = Found::with_room(rt.alloc(), 3)?;
    let Some(mut drive) = held(rt, BufferedDrive::new(rt.alloc(), 3))? else {
        return Ok(());
    };
    put(rt, &mut drive, 5, 1, 1024)?;
    put(rt, &mut drive, 7, 0, 512)?;
    show(rt, &drive, 8, 5, 100, &mut found)?;
    put(rt, &mut drive, 8, 3, 512)?;
    show(rt, &drive, 8, 5, 100, &mut found)?;
    show(rt, &drive, 8, 7, 100, &mut found)
}

// Slots that are not there, drives of none, and writes that are refused.
fn refusals(rt: &HostRuntime) -> io::Result<()> {
    println!(rt; "refusals")?;
    match DirectDrive::new(rt.alloc(), 0) {
        Ok(_) => println!(rt; "  a drive of none")?,
        Err(fault) => println!(rt; "  no {}", u32::from(fault))?,
    }
    let Some(mut drive) = held(rt, DirectDrive::new(rt.alloc(), 4))? else {
        return Ok(());
    };
    peek(rt, &drive, 3)?;
    peek(rt, &drive, 4)?;
    let writes = [
        ((1 << 41) + 1, 0, 512),
        (0, 0, 0),
        (0, 0, 513),
        (0, 0, 4608),
        (0, 4294967295, 1024),
        (0, 0, 2560),
        (0, 4294967295, 512),
    ];
    for (from, address, length) in writes {
        put(rt, &mut drive, from, address, length)?;
    }
    peek(rt, &drive, 0)
}

// Writes, flushes and cuts a drive, and shows what is left.
fn cut_one<D: Drive>(rt: &HostRuntime, drive: &mut D, found: &mut Found) -> io::Result<()> {
    put(rt, drive, 0, 0, 1024)?;
    drive.flush();
    put(rt, drive, 2, 2, 1024)?;
    put(rt, drive, 4, 4, 512)?;
    show(rt, drive, 8, 0, 8, found)?;
    drive.cut(0b1100);
    show(rt, drive, 8, 0, 8, found)?;
    put(rt, drive, 4, 6, 512)?;
    drive.cut(0);
    show(rt, drive, 8, 0, 8, found)?;
    drive.blank();
    show(rt, drive, 8, 0, 8, found)
}

// The same on both drives.
fn cuts(rt: &HostRuntime) -> io::Result<()> {
    let mut found = Found::with_room(rt.alloc(), 8)?;
    let Some(mut behind) = held(rt, BufferedDrive::new(rt.alloc(), 8))? else {
        return Ok(());
    };
    println!(rt; "a buffered drive")?;
    cut_one(rt, &mut behind, &mut found)?;
    let Some(mut through) = held(rt, DirectDrive::new(rt.alloc(), 8))? else {
        return Ok(());
    };
    println!(rt; "a direct drive")?;
    cut_one(rt, &mut through, &mut found)
}

// Only the records of a run are left.
fn wipes(rt: &HostRuntime) -> io::Result<()> {
    println!(rt; "wiped")?;
    let Some(mut drive) = held(rt, BufferedDrive::new(rt.alloc(), 4))? else {
        return Ok(());
    };
    put(rt, &mut drive, 0, 0, 2048)?;
    put(rt, &mut drive, 4, 4, 512)?;
    for (from, upto) in [(2, 5), (3, 4)] {
        wipe(&mut drive, from, upto);
        for slot in 0..4 {
            peek(rt, &drive, slot)?;
        }
    }
    Ok(())
}

fn main(rt: HostRuntime) -> io::Result<()> {
    whole(&rt)?;
    torn(&rt)?;
    limits(&rt)?;
    disagreeing(&rt)?;
    stale(&rt)?;
    wrapped(&rt)?;
    refusals(&rt)?;
    cuts(&rt)?;
    wipes(&rt)
}
