// Objects: their bytes, building them, reading them, and what each does to a map.
#![tactic(auto)]

ghost use Rattle.std.specs.Prelude.{◌≡◌, List};
ghost use Rattle.std.specs.Iterator.{AlwaysYields, IsFinite};
ghost use Rattle.extents.specs.declared.extent.Extent.{Extent};
ghost use Rattle.extents.specs.declared.target.Place.{Place};
ghost use Rattle.objects.specs.Seen.{chained, follows, no_extent};

use extents::{Extent, Place, Target};

mod damaged;
mod entry;
mod fault;
mod header;
mod kind;
mod laws;
mod part;
mod questions;
mod reading;
mod states;

pub use damaged::Damaged;
pub use entry::{Carrier, Entry};
pub use fault::ApplyFault;
pub use header::Header;
pub use laws::{built_objects_stand, one_map, one_object};
pub use part::{Part, part_of};
pub use questions::{entry_of, header_of, payload_offset};
pub use reading::applying::apply;
pub use reading::{read, read_checkpoint};
pub use states::{Begun, Closed, Filled, NumberToken, Numbers};

// How many blocks a disk has at most.
const MOST_BLOCKS: u32 = 1024;

// How many entries an object that carries blocks has at most, and how many blocks.
const MOST_CARRIED: u32 = 32;

// The first record of a checkpoint is below this.
const FIRST_LIMIT: u64 = 1 << 40;

// An extent that no extent with an object of 1 or more goes on from.
const NO_EXTENT: Extent<Place> = Extent {
    first: 0,
    length: 0,
    target: Place {
        object: 0,
        offset: 0,
    },
};

// Whether an extent keeps its rules, and may stand after `last`.
fn follows(last: Extent<Place>, extent: Extent<Place>, number: u32, blocks: u32) -> bool
    ensures { result ≡ follows number blocks last extent }
{
    let end = u64::from(extent.first) + u64::from(extent.length);
    let last_end = u64::from(last.first) + u64::from(last.length);
    let object = extent.target.object;
    let inside = end <= u64::from(blocks) && object >= 1 && object < number;
    let short = u64::from(extent.target.offset) + 512 * u64::from(extent.length) <= 65536;
    let after = extent.length >= 1 && last_end <= u64::from(extent.first);
    let joined = last_end == u64::from(extent.first)
        && last.target.leads_to(last.length, extent.target);
    inside && short && after && !joined
}

// Whether the extents keep their rules, each after the one before.
fn chained<I: Iterator<Item = Extent<Place>> + Drop>(extents: I, number: u32, blocks: u32) -> bool
    requires can { I.can_next extents }
    requires ends { IsFinite (I.remaining extents) }
    ensures { (table : List (Extent Place)) → AlwaysYields I.next_gives (λ x. x) extents table → result ≡ chained number blocks no_extent table }
{
    let mut last = NO_EXTENT;
    for extent in extents {
        if !follows(last, extent, number, blocks) {
            return false;
        }
        last = extent;
    }
    true
}
