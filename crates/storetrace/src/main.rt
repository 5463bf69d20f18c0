// Runs both stores through the same calls and prints their answers.
#![tactic(auto)]

use std::fmt;
use store::Store;
use store::directory::packed::PackedStore;
use store::directory::paged::PagedStore;
use store::fault::{MakeFault, StoreFault};

// What a call answered: a value, or `no` and the number of the refusal.
#[derive(Drop)]
struct Answer<T>(Result<T, StoreFault>);

impl<T: fmt::Display> fmt::Display for Answer<T> {
    fn fmt<W: fmt::Write>(&self, f: &mut fmt::Formatter<W>) -> fmt::Result {
        match &self.0 {
            Ok(value) => write!(f, "{value}"),
            Err(fault) => write!(f, "no {}", u8::from(*fault)),
        }
    }
}

// Fills bytes so that each object and each place in it differs from its neighbours.
fn fill(bytes: &mut [u8], number: u32) {
    for (i, byte) in bytes.iter_mut().enumerate() {
        *byte = ((i % 251 + number as usize % 251) % 251) as u8;
    }
}

fn put<S: Store>(rt: &HostRuntime, store: &mut S, number: u32, len: usize) -> anyhow::Result<()> {
    let mut bytes = vec![in rt.alloc(); 0u8; len]?;
    fill(bytes.as_mut_slice(), number);
    let answer = Answer(store.put(number, &bytes).map(|()| "ok"));
    println!(rt; "put {number} of {len}: {answer}")?;
    Ok(())
}

fn poll<S: Store>(rt: &HostRuntime, store: &mut S) -> anyhow::Result<()> {
    match store.poll() {
        Some(number) => println!(rt; "poll: {number}")?,
        None => println!(rt; "poll: none")?,
    }
    Ok(())
}

fn size<S: Store>(rt: &HostRuntime, store: &S, number: u32) -> anyhow::Result<()> {
    let answer = Answer(store.size(number));
    println!(rt; "size {number}: {answer}")?;
    Ok(())
}

fn get<S: Store>(rt: &HostRuntime, store: &S, number: u32, from: u32) -> anyhow::Result<()> {
    let mut out = [255u8; 4];
    let answer = store.get(number, from, &mut out);
    let [a, b, c, d] = out;
    match answer {
        Ok(()) => println!(rt; "get {number} from {from}: {a} {b} {c} {d}")?,
        Err(fault) => {
            let why = u8::from(fault);
            println!(rt; "get {number} from {from}: no {why}, {a} {b} {c} {d}")?;
        }
    }
    Ok(())
}

fn get_nothing<S: Store>(
    rt: &HostRuntime,
    store: &S,
    number: u32,
    from: u32,
) -> anyhow::Result<()> {
    let answer = Answer(store.get(number, from, &mut []).map(|()| "ok"));
    println!(rt; "get nothing of {number} from {from}: {answer}")?;
    Ok(())
}

fn next<S: Store>(rt: &HostRuntime, store: &S, from: u32) -> anyhow::Result<()> {
    match store.next(from) {
        Some(number) => println!(rt; "next {from}: {number}")?,
        None => println!(rt; "next {from}: none")?,
    }
    Ok(())
}

fn delete<S: Store>(rt: &HostRuntime, store: &mut S, number: u32) -> anyhow::Result<()> {
    let answer = Answer(store.delete(number).map(|()| "ok"));
    println!(rt; "delete {number}: {answer}")?;
    Ok(())
}

fn cut<S: Store>(rt: &HostRuntime, store: &mut S, survivors: u64) -> anyhow::Result<()> {
    store.cut(survivors);
    println!(rt; "cut {survivors}")?;
    Ok(())
}

fn waiting<S: Store>(rt: &HostRuntime, store: &S) -> anyhow::Result<()> {
    let count = store.waiting();
    println!(rt; "waiting: {count}")?;
    Ok(())
}

// Puts that are refused or pend, and polls.
fn first_puts<S: Store>(rt: &HostRuntime, store: &mut S) -> anyhow::Result<()> {
    poll(rt, store)?;
    next(rt, store, 0)?;
    put(rt, store, 0, 0)?;
    put(rt, store, 0, 5)?;
    put(rt, store, 1, 16665)?;
    put(rt, store, 1, 16664)?;
    put(rt, store, 1, 5)?;
    put(rt, store, 4294967295, 1024)?;
    put(rt, store, 2, 1025)?;
    waiting(rt, store)?;
    size(rt, store, 1)?;
    poll(rt, store)?;
    poll(rt, store)?;
    poll(rt, store)?;
    poll(rt, store)
}

// Questions about what has landed.
fn questions<S: Store>(rt: &HostRuntime, store: &S) -> anyhow::Result<()> {
    size(rt, store, 1)?;
    size(rt, store, 4294967295)?;
    next(rt, store, 0)?;
    next(rt, store, 2)?;
    next(rt, store, 3)?;
    next(rt, store, 4294967295)?;
    get(rt, store, 2, 1021)?;
    get(rt, store, 2, 1022)?;
    get(rt, store, 2, 4294967295)?;
    get(rt, store, 1, 16660)?;
    get(rt, store, 9, 0)?;
    get_nothing(rt, store, 2, 1025)?;
    get_nothing(rt, store, 2, 1026)?;
    get_nothing(rt, store, 2, 4294967295)
}

// A delete, eight pending puts, and a cut that keeps four of them.
fn cuts<S: Store>(rt: &HostRuntime, store: &mut S) -> anyhow::Result<()> {
    delete(rt, store, 1)?;
    delete(rt, store, 1)?;
    get(rt, store, 2, 1021)?;
    for i in 3..12u32 {
        put(rt, store, i, 1500)?;
    }
    delete(rt, store, 3)?;
    cut(rt, store, 0xf0a5)?;
    waiting(rt, store)?;
    for i in 0..12u32 {
        next(rt, store, i)?;
        get(rt, store, i, 1022)?;
    }
    put(rt, store, 12, 7)?;
    cut(rt, store, 2)?;
    size(rt, store, 12)
}

// Puts until the store is full, a delete, and a put in its place.
fn refill<S: Store>(rt: &HostRuntime, store: &mut S) -> anyhow::Result<()> {
    for i in 20..24u32 {
        put(rt, store, i, 16664)?;
        poll(rt, store)?;
    }
    put(rt, store, 30, 3072)?;
    put(rt, store, 31, 1)?;
    put(rt, store, 32, 9000)?;
    delete(rt, store, 20)?;
    put(rt, store, 33, 16664)?;
    cut(rt, store, 18446744073709551615)?;
    for i in 30..34u32 {
        get(rt, store, i, 0)?;
        get(rt, store, i, 2046)?;
    }
    get(rt, store, 21, 16660)?;
    get(rt, store, 4294967295, 1020)
}

fn trace<S: Store>(rt: &HostRuntime, store: &mut S) -> anyhow::Result<()> {
    first_puts(rt, store)?;
    questions(rt, store)?;
    cuts(rt, store)?;
    refill(rt, store)
}

// Traces a store that was made, or prints why it was not.
fn made<S: Store + Drop>(
    rt: &HostRuntime,
    kind: &str,
    count: u32,
    store: Result<S, MakeFault>,
) -> anyhow::Result<()> {
    println!(rt; "{kind} {count}")?;
    match store {
        Ok(mut store) => trace(rt, &mut store),
        Err(fault) => {
            println!(rt; "{fault}")?;
            Ok(())
        }
    }
}

fn main(rt: HostRuntime) -> anyhow::Result<()> {
    for count in [0u32, 65, 48] {
        made(&rt, "paged", count, PagedStore::new(rt.alloc(), count))?;
    }
    for count in [0u32, 65537, 49152] {
        made(&rt, "packed", count, PackedStore::new(rt.alloc(), count))?;
    }
    Ok(())
}
