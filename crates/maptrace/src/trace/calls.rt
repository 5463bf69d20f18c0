// What the commands do to the maps.
ghost use Rattle.std.specs.Prelude.{◌≡◌, Ok, Err};
ghost use Rattle.extents.specs.Map.{target_at};
ghost use Rattle.extents.specs.Answers.{Made};
ghost use Rattle.maptrace.specs.Traces.{Traced, mapped_below};

use crate::command::Command;
use crate::trace::{BLOCKS, Outcome, Trace};
use extents::{ExtentMap, MapFault, PlaceMap, RecordMap, Target};
use std::alloc::Global;

impl Trace {
    // Two empty maps.
    pub fn new(heap: Global) -> Result<Trace, MapFault>
        ensures { elim result [ Ok v ↦ Made 1024 v.places × Made 1024 v.records | Err f ↦ f ≡ MapFault.NoMemory ] }
    {
        let places = PlaceMap::with_room(heap, BLOCKS)?;
        let records = RecordMap::with_room(heap, BLOCKS)?;
        Ok(Trace { places, records })
    }

    // Does what a command asks for.
    pub fn apply(&mut self, command: Command) -> Result<Outcome, MapFault>
        ensures { Traced command self.old result self.new }
    {
        match command {
            Command::Insert(e) => {
                self.places.insert(e.first, e.length, e.target)?;
                Ok(Outcome::Inserted(e))
            }
            Command::Record(e) => {
                self.records.insert(e.first, e.length, e.target)?;
                Ok(Outcome::Recorded(e))
            }
            Command::Drop(limit) => {
                self.records.drop_below(limit);
                Ok(Outcome::Dropped(limit))
            }
            Command::Lookup(block) => {
                let place = self.places.lookup(block);
                let record = self.records.lookup(block);
                Ok(Outcome::Found(block, place, record))
            }
        }
    }
}

// How many blocks of a map have a target.
pub fn mapped<T: Target>(map: &ExtentMap<T>) -> usize
    ensures { result ≡ mapped_below (target_at T.advanced map.now.extents) map.now.blocks }
{
    (0..map.blocks())
        .filter(|b| map.lookup(*b).is_some())
        .count()
}
