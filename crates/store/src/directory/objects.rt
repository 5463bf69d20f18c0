// A store over any space.
ghost use Rattle.std.specs.Prelude.{◌≡◌, ◌+◌, ◌*◌, ◌<◌, ◌≤◌, vec_capacity};
ghost use Rattle.store.specs.Entries.{total};

pub mod calls;

use crate::directory::{Directory, Space};

// The objects lie in the space in the order of their entries; `used` is where the last ends, and `load` is what all weigh.
#[derive(Drop)]
pub struct ObjectStore<S: Space> {
    directory: Directory,
    space: S,
    used: usize,
    load: usize,
    ghost used_is: { used ≡ total S.room directory.entries.items },
    ghost load_is: { load ≡ total S.weight directory.entries.items },
    ghost within: { load ≤ S.capacity space },
    ghost roomy: { S.capacity space < S.weight 1 * (vec_capacity directory.entries + 1) },
}
