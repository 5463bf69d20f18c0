// Pages as a space for objects.
ghost use Rattle.std.specs.Prelude.{vec_len};
ghost use Rattle.std.proofs.Common.{arith, rules};
ghost use Rattle.store.specs.Calls.{newest_turn};
ghost use Rattle.store.specs.PagedSound.{pages, paged_room, laid, length_laid, room_total};

use super::{all_pages, read_pages, retire, write_pages};
use crate::directory::paged::Pages;
use crate::directory::{Directory, Space};
use std::alloc::{AllocError, Global};

impl Space for Pages {
    const LIMIT: u32 = 64;

    ghost LIMIT = { 64 };

    ghost capacity = { λ s. vec_len s.order };

    ghost bytes = { λ s. laid s.area.items s.order.items };

    ghost room = { paged_room };

    ghost weight = { pages };

    ghost turn = { newest_turn };

    ghost roomy = { Prim.search rules };

    ghost heavy = { Prim.search rules };

    ghost covered = { λ s es h. Prim.omega (arith, room_total es, h, s.order.ok.0, s.area.ok.0, s.bounds.3, length_laid s.area.items s.order.items (vec_len s.order) s.bounds.0) };

    ghost bounded = { λ s. (Prim.omega (arith, s.order.ok.0, s.area.ok.0, s.bounds.2, s.bounds.3, length_laid s.area.items s.order.items (vec_len s.order) s.bounds.0), Prim.omega (arith, s.bounds.2)) };

    fn new(heap: Global, count: u32) -> Result<Pages, AllocError> {
        let area = vec![in heap; 0u8; 1024 * count as usize]?;
        let order = all_pages(heap, count as u8)?;
        Ok(Pages { order, area })
    }

    fn capacity(&self) -> usize {
        self.order.len()
    }

    fn room(length: u32) -> usize {
        1024 * (length as usize).div_ceil(1024)
    }

    fn weight(length: u32) -> usize {
        (length as usize).div_ceil(1024)
    }

    fn write(&mut self, at: usize, object: &[u8]) {
        write_pages(&mut self.area, &self.order, at / 1024, object);
    }

    fn read(&self, at: usize, out: &mut [u8]) {
        read_pages(&self.area, &self.order, at, out);
    }

    fn close(&mut self, at: usize, size: u32, _end: usize) {
        retire(&mut self.order, at / 1024, Self::weight(size));
    }

    fn next(directory: &Directory) -> Option<usize> {
        directory.newest()
    }
}
