// What each kind of store promises by its own words, and objects through both.
ghost use Rattle.store.specs.Calls.{PolledNewest, PolledOldest, CutBy, Made};
ghost use Rattle.store.specs.Held.{held};
ghost use Rattle.store.specs.PackedSound.{packed_weight};
ghost use Rattle.store.specs.PagedSound.{pages};

use crate::Store;
use crate::directory::packed::PackedStore;
use crate::directory::paged::PagedStore;
use crate::fault::{MakeFault, StoreFault};
use std::alloc::Global;
use std::test::Fail;

// A paged store has 1 to 64 pages, and its objects weigh their pages.
fn paged_new(heap: Global, count: u32) -> Result<PagedStore, MakeFault>
    ensures { Made held pages 64 count result }
{
    PagedStore::new(heap, count)
}

// A packed store has 1 to 65,536 bytes, and its objects weigh 12 more than their bytes.
fn packed_new(heap: Global, bytes: u32) -> Result<PackedStore, MakeFault>
    ensures { Made held packed_weight 65536 bytes result }
{
    PackedStore::new(heap, bytes)
}

// A paged store lands the newest pending put.
fn paged_poll(store: &mut PagedStore) -> Option<u32>
    ensures { PolledNewest (held store.old) result (held store.new) }
{
    store.poll()
}

// A packed store lands the oldest.
fn packed_poll(store: &mut PackedStore) -> Option<u32>
    ensures { PolledOldest (held store.old) result (held store.new) }
{
    store.poll()
}

// A cut goes by the bits of the survivors.
fn paged_cut(store: &mut PagedStore, survivors: u64)
    ensures { CutBy survivors (held store.old) (held store.new) }
{
    store.cut(survivors);
}

fn packed_cut(store: &mut PackedStore, survivors: u64)
    ensures { CutBy survivors (held store.old) (held store.new) }
{
    store.cut(survivors);
}

// Puts two objects.
fn two_puts<S: Store>(store: &mut S) -> Result<(), StoreFault> {
    store.put(7, &[1, 2, 3])?;
    store.put(5, &[4])
}

#[test]
fn paged_store_works(rt: HostRuntime) -> Result<(), Fail> {
    let mut store = paged_new(rt.alloc(), 3)?;
    two_puts(&mut store)?;
    assert_eq!(rt; paged_poll(&mut store), Some(5));
    paged_cut(&mut store, 0);
    assert_eq!(rt; store.size(7), Err(StoreFault::Absent));
    let mut out = [0; 1];
    store.get(5, 0, &mut out)?;
    assert_eq!(rt; out[0], 4);
    Ok(())
}

#[test]
fn packed_store_works(rt: HostRuntime) -> Result<(), Fail> {
    let mut store = packed_new(rt.alloc(), 64)?;
    two_puts(&mut store)?;
    assert_eq!(rt; packed_poll(&mut store), Some(7));
    packed_cut(&mut store, 0);
    assert_eq!(rt; store.size(5), Err(StoreFault::Absent));
    let mut out = [0; 2];
    store.get(7, 1, &mut out)?;
    assert_eq!(rt; out[1], 3);
    Ok(())
}
