// What an object does to a map of places.
ghost use Rattle.std.specs.Prelude.{◌≡◌, ℕ, ◌^◌, ◌≤◌, true, length, MatchResult};
ghost use Rattle.extents.specs.Kinds.{place_advanced, place_fits, place_same};
ghost use Rattle.extents.specs.Map.{all_in_range, is_table};
ghost use Rattle.objects.specs.Applying.{Applies, laid, places, recorded};
ghost use Rattle.objects.specs.Layout.{total};
ghost use Rattle.objects.specs.Rules.{entry_fits, every};
ghost use Rattle.objects.specs.Seen.{entries_said, extents_said, sound};

use super::Candidate;
use crate::entry::{Carrier, Entry};
use crate::fault::ApplyFault;
use crate::kind::Kind;
use crate::part::Part;
use crate::questions::payload_offset;
use extents::{Extent, Place, PlaceMap};

// Inserts the entries in order, each with the place of its first payload block.
fn lay(entries: &[[u8; 8]], number: u32, map: &mut PlaceMap)
    requires few { length entries.now ≤ 32 }
    requires fit { every (entry_fits 32 map.old.blocks) (entries_said entries.now) ≡ true }
    requires sum { total (entries_said entries.now) ≤ 32 }
    ensures blocks { map.new.blocks ≡ map.old.blocks }
    ensures places { (b : ℕ) → places map.new b ≡ laid number (length entries.now) 0 (entries_said entries.now) (places map.old) b }
{
    let count = entries.len() as u32;
    let mut before = 0u32;
    for bytes in entries {
        let entry = Entry::of_bytes(*bytes);
        let place = Place {
            object: number,
            offset: payload_offset(count, before) as u32,
        };
        let _ = map.insert(entry.address, entry.count, place);
        before += entry.count;
    }
}

// Sets the map to the table of a checkpoint.
fn set_table(extents: &[[u8; 16]], map: &mut PlaceMap)
    requires tabled { is_table place_advanced place_same (extents_said extents.now) ≡ true }
    requires ranged { all_in_range place_advanced place_fits map.old.blocks (extents_said extents.now) ≡ true }
    ensures blocks { map.new.blocks ≡ map.old.blocks }
    ensures table { map.new.extents ≡ extents_said extents.now }
{
    map.clear();
    for bytes in extents {
        let extent = Extent::of_bytes(*bytes);
        let _ = map.append(extent);
    }
}

// The count of records after an object that carries so many blocks, if it fits its width.
fn recorded(carrier: Carrier, tally: u32, records: u64) -> Result<u64, ApplyFault>
    ensures { MatchResult result (λ count. count ≡ recorded carrier tally records) (λ fault. (fault ≡ ApplyFault.TooManyRecords) × (2 ^ 64 ≤ recorded carrier tally records)) }
{
    match carrier {
        Carrier::Data => records
            .checked_add(u64::from(tally))
            .ok_or(ApplyFault::TooManyRecords),
        Carrier::Clean => Ok(records),
    }
}

impl Candidate<'_> {
    // Applies an object that is undamaged.
    fn take_in(&self, map: &mut PlaceMap, records: u64) -> Result<u64, ApplyFault>
        requires { sound map.old.blocks self.now.header.number self.now.bytes.now ≡ true }
        ensures { Applies self.now.header.number self.now.bytes.now records map.old result map.new }
    {
        match self.kind {
            Kind::Carrier(carrier) => {
                let count = recorded(carrier, self.header.tally, records)?;
                lay(self.entries(), self.header.number, map);
                Ok(count)
            }
            Kind::Checkpoint => {
                set_table(self.entries(), map);
                Ok(self.header.first)
            }
        }
    }
}

// Takes the map and the count of records to what they are after the object with these bytes, and answers the new count.
pub fn apply(bytes: &[u8], name: u32, map: &mut PlaceMap, records: u64) -> Result<u64, ApplyFault>
    ensures { Applies name bytes.now records map.old result map.new }
{
    let object = Candidate::of(bytes)?;
    object.check(name, map.blocks())?;
    object.take_in(map, records)
}
