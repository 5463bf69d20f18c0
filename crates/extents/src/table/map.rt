// The map of a disk's blocks to targets, and the steps of its calls.
ghost use Rattle.std.specs.Prelude.{◌≡◌, ℕ, ◌+◌, ◌≤◌, true, [], ◌∷◌, ◌++◌, drop, Some, None, Ok, Err};
ghost use Rattle.extents.specs.Map.{target_at, is_table};
ghost use Rattle.extents.specs.Faults.{extent_refusal};
ghost use Rattle.extents.specs.Answers.{overlaid};
ghost use Rattle.extents.specs.Steps.{reach, left_of, right_of, at_head};

use crate::extent::Extent;
use crate::fault::MapFault;
use crate::table::replace;
use crate::target::{Place, Record, Target};
use std::marker::Model;

mod calls;

// A map of so many blocks: its extents are a table within them, and there is room for two more extents than blocks.
#[derive(Drop)]
pub struct ExtentMap<T: Target> {
    entries: Vec<Extent<T>>,
    blocks: u32,
}

// The map of blocks to places in objects.
pub type PlaceMap = ExtentMap<Place>;

// The map of blocks to records of the log.
pub type RecordMap = ExtentMap<Record>;

impl<T: Target> Model for ExtentMap<T> {
    ghost use Rattle.std.specs.Prelude.{vec_items, vec_capacity};
    ghost use Rattle.extents.specs.Mapped.{Mapped, Sound};

    ghost Value = { Mapped T };

    ghost view = { λ m. record { blocks = m.blocks; extents = vec_items m.entries; room = vec_capacity m.entries } };

    ghost invariant = { λ m. Sound T.advanced T.same T.fits m.blocks (vec_items m.entries) (vec_capacity m.entries) };
}

impl<T: Target> ExtentMap<T> {
    // Whether the map takes an extent, or why it does not.
    fn admit(&self, e: Extent<T>) -> Result<(), MapFault>
        ensures { elim result [ Ok _ ↦ extent_refusal T.advanced T.fits self.now.blocks e ≡ None | Err f ↦ extent_refusal T.advanced T.fits self.now.blocks e ≡ Some f ] }
    {
        if e.length == 0 {
            return Err(MapFault::Empty);
        }
        if e.end() > u64::from(self.blocks) {
            return Err(MapFault::OutOfRange);
        }
        e.target.advance(e.length - 1).ok_or(MapFault::TooWide)?;
        Ok(())
    }

    // How many extents end before the block `x`.
    fn reached(&self, x: u64) -> usize
        ensures { result ≡ reach x self.now.extents }
    {
        self.entries.partition_point(|e| e.end() < x)
    }

    // What the extent at `i`, if there is one, has before the block `a`. (This and the next differ in the question asked, which as a closure would be all there is to them.)
    fn left_at(&self, i: usize, a: u32) -> Option<Extent<T>>
        ensures { result ≡ at_head (left_of a) (drop i self.now.extents) }
    {
        self.entries.get(i)?.before(a)
    }

    // What the extent at `j`, the first that ends past the block `c`, has from `c` on.
    fn right_at(&self, j: usize, c: u32) -> Option<Extent<T>>
        requires { j ≡ reach (c + 1) self.now.extents }
        ensures { result ≡ at_head (right_of T.advanced c) (drop j self.now.extents) }
    {
        self.entries.get(j)?.from_block(c)
    }

    // Inserts an extent that the map takes.
    fn enter(&mut self, e: Extent<T>)
        requires { extent_refusal T.advanced T.fits self.old.blocks e ≡ None }
        ensures blocks { self.new.blocks ≡ self.old.blocks }
        ensures targets { (b : ℕ) → target_at T.advanced self.new.extents b ≡ overlaid T.advanced e (target_at T.advanced self.old.extents) b }
        ensures table { is_table T.advanced T.same self.new.extents ≡ true }
    {
        let i = self.reached(u64::from(e.first));
        let after = e.first + e.length;
        let j = self.reached(u64::from(after) + 1);
        let left = self.left_at(i, e.first);
        let right = self.right_at(j, after);
        let upto = j + usize::from(right.is_some());
        let (middle, third) = e.join_right(right);
        let (head, second) = middle.join_left(left);
        replace(&mut self.entries, i, upto, head, second, third);
    }

    // Whether the table is still one with `e` after it.
    fn extends(&self, e: Extent<T>) -> bool
        requires { 1 ≤ e.length }
        ensures { result ≡ is_table T.advanced T.same (self.now.extents ++ e ∷ []) }
    {
        self.entries.last().is_none_or(|last| last.may_precede(e))
    }
}
