// A store's directory: an entry for each object, in put order.
ghost use Rattle.std.specs.Prelude.{◌≡◌, ℕ, suc, ◌+◌, ◌-◌, ◌<◌, ◌≤◌, true, false, [], ◌∷◌, ◌++◌, length, get_or, take, drop, IfOk, List, vec_len, vec_capacity, slice_index_or};
ghost use Rattle.std.specs.List.{remove};
ghost use Rattle.store.specs.Calls.{lawful_length, oldest_turn, newest_turn};
ghost use Rattle.store.specs.declared.directory.Entry.{Entry};
ghost use Rattle.store.specs.Entries.{named, lowest, risen, blank, total, waits, Begins, Found, PartFound, IsNext, Listed};

mod objects;
pub mod packed;
pub mod paged;

use crate::fault::StoreFault;
pub use objects::ObjectStore;
use std::alloc::{AllocError, Global};

// An object: its number, its length, and whether it has landed. A plain flag, since nothing is known of a landed object that is not known of a pending one.
#[derive(Clone, Copy, PartialEq, Eq, Debug)]
pub struct Entry {
    pub number: u32,
    pub length: u32,
    pub landed: bool,
}

// The entries, of which `waiting` are pending.
#[derive(Drop)]
pub struct Directory {
    entries: Vec<Entry>,
    waiting: u32,
    ghost listed: { Listed entries.items waiting },
}

impl Directory {
    // An empty directory with room for so many entries.
    fn new(heap: Global, room: usize) -> Result<Directory, AllocError>
        ensures { IfOk result (λ d. (d.entries.items ≡ []) × (room ≤ vec_capacity d.entries)) }
    {
        let entries = Vec::with_capacity(heap, room)?;
        Ok(Directory {
            entries,
            waiting: 0,
        })
    }

    // Whether an entry has the number.
    fn is_named(&self, number: u32) -> bool
        ensures { result ≡ named self.now.entries.items number }
    {
        self.entries.iter().any(|e| e.number == number)
    }

    // The landed entry with the number.
    fn find(&self, number: u32) -> Result<usize, StoreFault>
        ensures { Found self.now.entries.items number result }
    {
        self.entries
            .iter()
            .position(|e| e.landed && e.number == number)
            .ok_or(StoreFault::Absent)
    }

    // The landed entry with the number, if its object has `count` bytes from `from` on.
    fn find_part(&self, number: u32, from: u32, count: usize) -> Result<usize, StoreFault>
        ensures { PartFound self.now.entries.items number from count result }
    {
        let i = self.find(number)?;
        let length = self.entries[i].length;
        if from <= length && count <= (length - from) as usize {
            Ok(i)
        } else {
            Err(StoreFault::PastEnd)
        }
    }

    // The first pending entry.
    fn oldest(&self) -> Option<usize>
        ensures { IsNext oldest_turn self.now.entries.items result }
    {
        self.entries.iter().position(|e| !e.landed)
    }

    // The last pending entry.
    fn newest(&self) -> Option<usize>
        ensures { IsNext newest_turn self.now.entries.items result }
    {
        self.entries.iter().rposition(|e| !e.landed)
    }

    // The lowest number from `from` on of a landed entry.
    fn lowest_from(&self, from: u32) -> Option<u32>
        ensures { result ≡ lowest self.now.entries.items from }
    {
        self.entries
            .iter()
            .filter(|e| e.landed && e.number >= from)
            .map(|e| e.number)
            .min()
    }

    // Adds a pending entry behind the others.
    fn push(&mut self, number: u32, length: u32)
        requires some { 1 ≤ number }
        requires new { named self.old.entries.items number ≡ false }
        requires lawful { lawful_length length ≡ true }
        requires few { self.old.waiting < 8 }
        requires room { vec_len self.old.entries < vec_capacity self.old.entries }
        ensures items { self.new.entries.items ≡ self.old.entries.items ++ record { number = number; length = length; landed = false } ∷ [] }
        ensures capacity { vec_capacity self.new.entries ≡ vec_capacity self.old.entries }
    {
        self.entries.push_reserved(Entry {
            number,
            length,
            landed: false,
        });
        self.waiting += 1;
    }

    // Marks a pending entry as landed, and answers its number.
    fn land(&mut self, i: usize) -> u32
        requires within { i < length self.old.entries.items }
        requires pending { (get_or self.old.entries.items i blank).landed ≡ false }
        ensures number { result ≡ (get_or self.old.entries.items i blank).number }
        ensures items { self.new.entries.items ≡ take i self.old.entries.items ++ risen (slice_index_or self.old.entries.items i blank) ∷ drop (suc i) self.old.entries.items }
        ensures capacity { vec_capacity self.new.entries ≡ vec_capacity self.old.entries }
        ensures fewer { self.new.waiting + 1 ≡ self.old.waiting }
    {
        let e = self.entries[i];
        self.entries[i] = Entry { landed: true, ..e };
        self.waiting -= 1;
        e.number
    }

    // Takes an entry out.
    fn take_out(&mut self, i: usize) -> Entry
        requires { i < length self.old.entries.items }
        ensures gone { result ≡ slice_index_or self.old.entries.items i blank }
        ensures items { self.new.entries.items ≡ remove self.old.entries.items i }
        ensures capacity { vec_capacity self.new.entries ≡ vec_capacity self.old.entries }
        ensures fewer { self.new.waiting + waits (slice_index_or self.old.entries.items i blank ∷ []) ≡ self.old.waiting }
    {
        let e = self.entries.remove(i);
        self.waiting -= u32::from(!e.landed);
        e
    }
}

// What one kind of store differs from another in: how its objects lie, what they weigh, and which pending put lands next.
trait Space: Drop {
    // The largest capacity.
    const LIMIT: u32;

    ghost LIMIT: { ℕ };

    // What all objects may weigh together.
    ghost capacity: { Self → ℕ };

    // The bytes in which the objects lie one after another.
    ghost bytes: { Self → List ℕ };

    // The room in them that an object of so many bytes takes.
    ghost room: { ℕ → ℕ };

    // What an object of so many bytes weighs.
    ghost weight: { ℕ → ℕ };

    // Which of so many pending puts lands next.
    ghost turn: { ℕ → ℕ };

    // A space of a capacity.
    fn new(heap: Global, count: u32) -> Result<Self, AllocError>
        requires some { 1 ≤ count }
        requires within { count ≤ LIMIT }
        ensures { IfOk result (λ s. capacity s ≡ count) };

    fn capacity(&self) -> usize
        ensures { result ≡ capacity self.now };

    fn room(length: u32) -> usize
        ensures { result ≡ room length };

    fn weight(length: u32) -> usize
        ensures { result ≡ weight length };

    // Writes an object behind others.
    fn write(&mut self, at: usize, object: &[u8])
        requires begins { Begins room at }
        requires fits { at + room (length object.now) ≤ length (bytes self.old) }
        ensures before { take at (bytes self.new) ≡ take at (bytes self.old) }
        ensures object { take (length object.now) (drop at (bytes self.new)) ≡ object.now }
        ensures capacity { capacity self.new ≡ capacity self.old };

    // Copies bytes from `at` on.
    fn read(&self, at: usize, out: &mut [u8])
        requires { at + length out.old ≤ length (bytes self.now) }
        ensures { out.new ≡ take (length out.old) (drop at (bytes self.now)) };

    // Closes up over an object: what lies behind it up to `end` lies where it began.
    fn close(&mut self, at: usize, size: u32, end: usize)
        requires begins { Begins room at }
        requires behind { at + room size ≤ end }
        requires within { end ≤ length (bytes self.old) }
        ensures before { take at (bytes self.new) ≡ take at (bytes self.old) }
        ensures behind { take (end - (at + room size)) (drop at (bytes self.new)) ≡ take (end - (at + room size)) (drop (at + room size) (bytes self.old)) }
        ensures capacity { capacity self.new ≡ capacity self.old };

    // The entry of the pending put that lands next.
    fn next(directory: &Directory) -> Option<usize>
        ensures { IsNext turn directory.now.entries.items result };

    // No object takes less room than its bytes.
    ghost roomy: { (n : ℕ) → n ≤ room n };

    // None weighs less than the shortest.
    ghost heavy: { (n : ℕ) → 1 ≤ n → (1 ≤ weight 1) × (weight 1 ≤ weight n) };

    // Objects that are not too heavy together find room.
    ghost covered: { (s : Self) (es : List Entry) → total weight es ≤ capacity s → total room es ≤ length (bytes s) };

    // No space is large.
    ghost bounded: { (s : Self) → (length (bytes s) ≤ 65536) × (capacity s ≤ 65536) };
}
