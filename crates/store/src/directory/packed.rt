// A store that keeps its objects end to end in one area.
ghost use Rattle.std.specs.Prelude.{◌≤◌, vec_len};
ghost use Rattle.std.proofs.Common.{arith, rules};
ghost use Rattle.store.specs.Calls.{oldest_turn};
ghost use Rattle.store.specs.PackedSound.{packed_room, packed_weight, packed_covered};

use crate::directory::objects::ObjectStore;
use crate::directory::{Directory, Space};
use std::alloc::{AllocError, Global};

// Every byte is room for objects, and each object weighs 12 bytes more than it has.
#[derive(Drop)]
pub struct Area {
    area: Vec<u8>,
    ghost some: { 1 ≤ vec_len area },
    ghost limit: { vec_len area ≤ 65536 },
}

pub type PackedStore = ObjectStore<Area>;

impl Space for Area {
    const LIMIT: u32 = 65536;

    ghost LIMIT = { 65536 };

    ghost capacity = { λ s. vec_len s.area };

    ghost bytes = { λ s. s.area.items };

    ghost room = { packed_room };

    ghost weight = { packed_weight };

    ghost turn = { oldest_turn };

    ghost roomy = { Prim.search rules };

    ghost heavy = { Prim.search rules };

    ghost covered = { λ s es h. Prim.omega (arith, packed_covered es, h, s.area.ok.0) };

    ghost bounded = { Prim.search rules };

    fn new(heap: Global, count: u32) -> Result<Area, AllocError> {
        let area = vec![in heap; 0u8; count as usize]?;
        Ok(Area { area })
    }

    fn capacity(&self) -> usize {
        self.area.len()
    }

    fn room(length: u32) -> usize {
        length as usize
    }

    fn weight(length: u32) -> usize {
        length as usize + 12
    }

    fn write(&mut self, at: usize, object: &[u8]) {
        let end = at + object.len();
        self.area[at..end].copy_from_slice(object);
    }

    fn read(&self, at: usize, out: &mut [u8]) {
        let end = at + out.len();
        out.copy_from_slice(&self.area[at..end]);
    }

    fn close(&mut self, at: usize, size: u32, end: usize) {
        self.area.copy_within(at + size as usize..end, at);
    }

    fn next(directory: &Directory) -> Option<usize> {
        directory.oldest()
    }
}
