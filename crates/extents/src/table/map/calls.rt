// The calls of a map.
ghost use Rattle.std.specs.Prelude.{◌≡◌, true, [], length, Ok, Err};
ghost use Rattle.extents.specs.Map.{extent, target_at, is_table, all_in_range};
ghost use Rattle.extents.specs.Faults.{room_refusal};
ghost use Rattle.extents.specs.Answers.{Made, Inserted, Appended, Dropped};

use super::ExtentMap;
use crate::extent::Extent;
use crate::fault::MapFault;
use crate::table::sieve;
use crate::target::{Ordered, Target};
use std::alloc::Global;

impl<T: Target> ExtentMap<T> {
    // A map of so many blocks, of which none has a target.
    pub fn with_room(heap: Global, blocks: u32) -> Result<ExtentMap<T>, MapFault>
        ensures { elim result [ Ok m ↦ Made blocks m | Err f ↦ f ≡ room_refusal blocks ] }
    {
        if blocks == 0 {
            return Err(MapFault::NoBlocks);
        }
        let entries = Vec::with_capacity(heap, blocks as usize + 2)?;
        Ok(ExtentMap { entries, blocks })
    }

    // How many blocks the map is for.
    pub fn blocks(&self) -> u32
        ensures { result ≡ self.now.blocks }
    {
        self.blocks
    }

    // How many extents its table has.
    pub fn count(&self) -> usize
        ensures { result ≡ length self.now.extents }
    {
        self.entries.len()
    }

    // Its table.
    pub fn extents(&self) -> &[Extent<T>]
        ensures value { result.now ≡ self.now.extents }
        ensures table { is_table T.advanced T.same result.now ≡ true }
        ensures range { all_in_range T.advanced T.fits self.now.blocks result.now ≡ true }
    {
        self.entries.as_slice()
    }

    // The target of a block, if it has one.
    pub fn lookup(&self, block: u32) -> Option<T>
        ensures { result ≡ target_at T.advanced self.now.extents block }
    {
        let e = self.entries.get(self.reached(u64::from(block) + 1))?;
        let on = block.checked_sub(e.first)?;
        e.target.advance(on)
    }

    // Gives `length` blocks, from `first` on, the targets from `target` on.
    pub fn insert(&mut self, first: u32, length: u32, target: T) -> Result<(), MapFault>
        ensures { Inserted T.advanced T.same T.fits (extent first length target) self.old result self.new }
    {
        let e = Extent {
            first,
            length,
            target,
        };
        self.admit(e)?;
        self.enter(e);
        Ok(())
    }

    // Puts an extent at the table's end, as a stored table is read.
    pub fn append(&mut self, e: Extent<T>) -> Result<(), MapFault>
        ensures { Appended T.advanced T.same T.fits e self.old result self.new }
    {
        self.admit(e)?;
        if !self.extends(e) {
            return Err(MapFault::Disorder);
        }
        self.entries.push_reserved(e);
        Ok(())
    }

    // Takes every block's target away.
    pub fn clear(&mut self)
        ensures empty { self.new.extents ≡ [] }
        ensures blocks { self.new.blocks ≡ self.old.blocks }
    {
        self.entries.clear();
    }
}

impl<T: Ordered> ExtentMap<T> {
    // Takes away the targets below `limit`.
    pub fn drop_below(&mut self, limit: T)
        ensures { Dropped T.Target.advanced T.Target.same T.below limit self.old self.new }
    {
        let left = sieve(self.entries.as_mut_slice(), limit);
        self.entries.truncate(left);
    }
}
