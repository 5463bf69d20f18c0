// Bytes in pages of an area.
ghost use Rattle.std.specs.Prelude.{◌≡◌, ◌+◌, ◌*◌, ◌≤◌, true, ◌++◌, length, take, drop, IfOk, vec_len};
ghost use Rattle.std.proofs.Math.Seq.{paste};
ghost use Rattle.store.specs.PagedSound.{laid, below, GivenOnce};

mod pages;

use std::alloc::{AllocError, Global};

// Writes the bytes from `at` on.
fn write_at(area: &mut Vec<u8>, at: usize, bytes: &[u8])
    requires { at + length bytes.now ≤ vec_len area.old }
    ensures items { area.new.items ≡ take at area.old.items ++ (bytes.now ++ drop (at + length bytes.now) area.old.items) }
    ensures len { vec_len area.new ≡ vec_len area.old }
{
    let end = at + bytes.len();
    area[at..end].copy_from_slice(bytes);
}

// Writes bytes into the pages from place `first` of the order on.
fn write_pages(area: &mut Vec<u8>, order: &[u8], first: usize, bytes: &[u8])
    requires fits { 1024 * first + length bytes.now ≤ 1024 * length order.now }
    requires pages { below (length order.now) order.now ≡ true }
    requires once { GivenOnce order.now }
    requires long { vec_len area.old ≡ 1024 * length order.now }
    requires few { length order.now ≤ 64 }
    ensures after { laid area.new.items order.now ≡ paste (laid area.old.items order.now) (1024 * first) bytes.now (length bytes.now) }
    ensures len { vec_len area.new ≡ vec_len area.old }
{
    for (part, page) in bytes.chunks(1024).zip(&order[first..]) {
        write_at(area, 1024 * usize::from(*page), part);
    }
}

// Copies so many bytes, from `start` on, to `at` in `out`.
fn copy_part(area: &[u8], start: usize, out: &mut [u8], at: usize, count: usize)
    requires source { start + count ≤ length area.now }
    requires target { at + count ≤ length out.old }
    ensures { out.new ≡ take at out.old ++ (take count (drop start area.now) ++ drop (at + count) out.old) }
{
    let end = at + count;
    let stop = start + count;
    out[at..end].copy_from_slice(&area[start..stop]);
}

// Copies bytes out of the pages, from the byte `at` of the order on. The loop counts by hand: the first part and the last may be short, so no chain is plainer.
fn read_pages(area: &[u8], order: &[u8], at: usize, out: &mut [u8])
    requires fits { at + length out.old ≤ 1024 * length order.now }
    requires pages { below (length order.now) order.now ≡ true }
    requires long { length area.now ≡ 1024 * length order.now }
    requires few { length order.now ≤ 64 }
    ensures { out.new ≡ take (length out.old) (drop at (laid area.now order.now)) }
{
    let mut done = 0;
    while done < out.len() {
        let from = at + done;
        let offset = from % 1024;
        let count = (out.len() - done).min(1024 - offset);
        let page = usize::from(order[from / 1024]);
        copy_part(area, 1024 * page + offset, out, done, count);
        done += count;
    }
}

// Moves the pages from `at` on, so many, behind all others.
fn retire(order: &mut Vec<u8>, at: usize, count: usize)
    requires { at + count ≤ vec_len order.old }
    ensures items { order.new.items ≡ take at order.old.items ++ (drop (at + count) order.old.items ++ take count (drop at order.old.items)) }
    ensures len { vec_len order.new ≡ vec_len order.old }
{
    order[at..].rotate_left(count);
}

// Every page once.
fn all_pages(heap: Global, count: u8) -> Result<Vec<u8>, AllocError>
    ensures { IfOk result (λ v. (vec_len v ≡ count) × (below count v.items ≡ true) × GivenOnce v.items) }
{
    let mut order = Vec::with_capacity(heap, usize::from(count))?;
    order.extend(0..count)?;
    Ok(order)
}
