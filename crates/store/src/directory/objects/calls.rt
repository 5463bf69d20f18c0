// The calls of a store over any space.
ghost use Rattle.std.specs.Prelude.{◌≡◌, ◌+◌, ◌<◌, true, false, length, get_or, take, None, Some, MatchResult};
ghost use Rattle.store.specs.Views.{next_from};
ghost use Rattle.store.specs.Calls.{putting, put_refusal, Polled, PolledInTurn, sized, Got, Deleted, deleting, vanishing, CutTo, CutBy, Made};
ghost use Rattle.store.specs.Held.{held};
ghost use Rattle.store.specs.Entries.{total, waits, blank};

use crate::Store;
use crate::directory::objects::ObjectStore;
use crate::directory::{Directory, Space};
use crate::fault::{MakeFault, StoreFault};
use std::alloc::Global;

impl<S: Space> ObjectStore<S> {
    // An empty store of a capacity.
    pub fn new(heap: Global, capacity: u32) -> Result<ObjectStore<S>, MakeFault>
        ensures { Made held S.weight S.LIMIT capacity result }
    {
        if capacity < 1 || capacity > S::LIMIT {
            return Err(MakeFault::Range);
        }
        let space = S::new(heap, capacity)?;
        let directory = Directory::new(heap, capacity as usize / S::weight(1))?;
        Ok(ObjectStore {
            directory,
            space,
            used: 0,
            load: 0,
        })
    }

    // Whether an object of that length may be put, or why not.
    fn admit(&self, number: u32, bytes: &[u8]) -> Result<(), StoreFault>
        ensures { MatchResult result (λ _. put_refusal (held self.now) number bytes.now ≡ None) (λ e. put_refusal (held self.now) number bytes.now ≡ Some e) }
    {
        let length = bytes.len();
        if length < 1 || length > 16664 {
            return Err(StoreFault::Length);
        }
        if number == 0 || self.directory.is_named(number) {
            return Err(StoreFault::Taken);
        }
        if self.directory.waiting >= 8 {
            return Err(StoreFault::Crowded);
        }
        if S::weight(length as u32) > self.space.capacity() - self.load {
            return Err(StoreFault::Full);
        }
        Ok(())
    }

    // Adds a pending object behind the others.
    fn append(&mut self, number: u32, bytes: &[u8])
        requires { put_refusal (held self.old) number bytes.now ≡ None }
        ensures { held self.new ≡ putting (held self.old) number bytes.now }
    {
        let length = bytes.len() as u32;
        self.space.write(self.used, bytes);
        self.directory.push(number, length);
        self.used += S::room(length);
        self.load += S::weight(length);
    }

    // Where the object of an entry begins.
    fn start(&self, i: usize) -> usize
        requires { i < length self.now.directory.entries.items }
        ensures { result ≡ total S.room (take i self.now.directory.entries.items) }
    {
        self.directory.entries[..i]
            .iter()
            .map(|e| S::room(e.length))
            .sum()
    }

    // Takes an object out and closes up behind it.
    fn remove(&mut self, i: usize)
        requires { i < length self.old.directory.entries.items }
        ensures landed { (get_or self.old.directory.entries.items i blank).landed ≡ true → held self.new ≡ deleting (held self.old) (get_or self.old.directory.entries.items i blank).number }
        ensures pending { (get_or self.old.directory.entries.items i blank).landed ≡ false → held self.new ≡ vanishing (held self.old) (waits (take i self.old.directory.entries.items)) }
        ensures fewer { (get_or self.old.directory.entries.items i blank).landed ≡ false → self.new.directory.waiting + 1 ≡ self.old.directory.waiting }
    {
        let start = self.start(i);
        let e = self.directory.take_out(i);
        self.space.close(start, e.length, self.used);
        self.used -= S::room(e.length);
        self.load -= S::weight(e.length);
    }

    // Lands the pending object whose turn it is, if any.
    fn land_next(&mut self) -> Option<u32>
        ensures any { Polled (held self.old) result (held self.new) }
        ensures turn { PolledInTurn S.turn (held self.old) result (held self.new) }
    {
        let i = S::next(&self.directory)?;
        Some(self.directory.land(i))
    }

    // The length of a landed object.
    fn length_of(&self, number: u32) -> Result<u32, StoreFault>
        ensures { result ≡ sized (held self.now) number }
    {
        let i = self.directory.find(number)?;
        Ok(self.directory.entries[i].length)
    }

    // Copies a part of a landed object.
    fn copy_out(&self, number: u32, from: u32, out: &mut [u8]) -> Result<(), StoreFault>
        ensures { Got (held self.now) number from out.old result out.new }
    {
        let i = self.directory.find_part(number, from, out.len())?;
        self.space.read(self.start(i) + from as usize, out);
        Ok(())
    }

    // The lowest landed number from `from` on.
    fn lowest_landed(&self, from: u32) -> Option<u32>
        ensures { result ≡ next_from (held self.now).landed from }
    {
        self.directory.lowest_from(from)
    }

    // How many puts are pending.
    fn pending_puts(&self) -> u32
        ensures { result ≡ length (held self.now).pending }
    {
        self.directory.waiting
    }

    // Removes a landed object.
    fn discard(&mut self, number: u32) -> Result<(), StoreFault>
        ensures { Deleted (held self.old) number result (held self.new) }
    {
        let at = self.directory.find(number)?;
        self.remove(at);
        Ok(())
    }

    // Lands or removes each pending object, the oldest by the lowest bit.
    fn settle(&mut self, survivors: u64)
        ensures any { CutTo (held self.old) (held self.new) }
        ensures bits { CutBy survivors (held self.old) (held self.new) }
    {
        // One turn for each pending put, which it takes off the pending ones; nothing is counted.
        let mut bits = survivors;
        while let Some(i) = self.directory.oldest() {
            if bits % 2 == 1 {
                self.directory.land(i);
            } else {
                self.remove(i);
            }
            bits /= 2;
        }
    }
}

impl<S: Space> Store for ObjectStore<S> {
    ghost meaning = { held };

    fn put(&mut self, number: u32, bytes: &[u8]) -> Result<(), StoreFault> {
        self.admit(number, bytes)?;
        self.append(number, bytes);
        Ok(())
    }

    fn poll(&mut self) -> Option<u32>
        ensures any { Polled (held self.old) result (held self.new) }
        ensures turn { PolledInTurn S.turn (held self.old) result (held self.new) }
    {
        self.land_next()
    }

    fn size(&self, number: u32) -> Result<u32, StoreFault> {
        self.length_of(number)
    }

    fn get(&self, number: u32, from: u32, out: &mut [u8]) -> Result<(), StoreFault> {
        self.copy_out(number, from, out)
    }

    fn next(&self, from: u32) -> Option<u32> {
        self.lowest_landed(from)
    }

    fn waiting(&self) -> u32 {
        self.pending_puts()
    }

    fn delete(&mut self, number: u32) -> Result<(), StoreFault> {
        self.discard(number)
    }

    fn cut(&mut self, survivors: u64)
        ensures any { CutTo (held self.old) (held self.new) }
        ensures bits { CutBy survivors (held self.old) (held self.new) }
    {
        self.settle(survivors);
    }
}
