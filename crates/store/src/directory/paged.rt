// A store that keeps each object in pages of its own.
ghost use Rattle.std.specs.Prelude.{vec_len};
ghost use Rattle.store.specs.PagedSound.{GivenOnce, PagedArea};

mod blocks;

use crate::directory::objects::ObjectStore;

// `order` lists every page once: those of the objects in turn, and then the free ones.
#[derive(Drop)]
pub struct Pages {
    order: Vec<u8>,
    area: Vec<u8>,
    ghost once: { GivenOnce order.items },
    ghost bounds: { PagedArea order.items (vec_len order) (vec_len area) },
}

pub type PagedStore = ObjectStore<Pages>;
