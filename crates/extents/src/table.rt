// The steps that a map's calls are made of: joining and cutting extents, and putting some in the place of others.
ghost use Rattle.std.specs.Prelude.{◌≡◌, ℕ, ◌+◌, ◌-◌, ◌^◌, ◌<◌, ◌≤◌, true, [], ◌∷◌, ◌++◌, length, take, drop, vec_items, vec_capacity};
ghost use Rattle.std.specs.List.{splice};
ghost use Rattle.std.proofs.Math.Seq.{paste};
ghost use Rattle.extents.specs.Map.{end, all_in_range};
ghost use Rattle.extents.specs.Steps.{joined, joined_onto, right_of, listed, EndsInWidth, sieved};

use crate::extent::Extent;
use crate::target::{Ordered, Target};

mod map;

pub use map::{ExtentMap, PlaceMap, RecordMap};

impl<T: Target> Extent<T> {
    // The extent, and `next` after it unless the two are joined.
    fn join(self, next: Extent<T>) -> (Extent<T>, Option<Extent<T>>)
        requires { end next < 2 ^ 32 }
        ensures { joined T.advanced T.same self (next ∷ []) ≡ result.0 ∷ listed result.1 }
    {
        if self.goes_on(next) {
            let length = self.length + next.length;
            (Extent { length, ..self }, None)
        } else {
            (self, Some(next))
        }
    }

    // The extent and what lies right of it, joined.
    fn join_right(self, right: Option<Extent<T>>) -> (Extent<T>, Option<Extent<T>>)
        requires { EndsInWidth right }
        ensures { joined T.advanced T.same self (listed right) ≡ result.0 ∷ listed result.1 }
    {
        match right {
            Some(x) => self.join(x),
            None => (self, None),
        }
    }

    // What lies left of the extent, and the extent, joined.
    fn join_left(self, left: Option<Extent<T>>) -> (Extent<T>, Option<Extent<T>>)
        requires { end self < 2 ^ 32 }
        ensures { joined_onto T.advanced T.same left self ≡ result.0 ∷ listed result.1 }
    {
        match left {
            Some(x) => x.join(self),
            None => (self, None),
        }
    }

    // What the extent, which ends past the block `c`, has from `c` on.
    fn from_block(self, c: u32) -> Option<Extent<T>>
        requires ends { c < end self }
        requires fits { self.first ≤ c → T.fits (T.advanced self.target (c - self.first)) ≡ true }
        ensures { result ≡ right_of T.advanced c self }
    {
        let skipped = c.checked_sub(self.first)?;
        Some(Extent {
            first: c,
            length: self.length - skipped,
            target: self.target.advance(skipped)?,
        })
    }
}

// Writes what `x` holds, if anything, at `at`.
fn write_held<X: Copy>(s: &mut [X], at: usize, x: Option<X>)
    requires { at + length (listed x) ≤ length s.old }
    ensures { s.new ≡ paste s.old at (listed x) (length (listed x)) }
{
    if let Some(v) = x {
        s[at] = v;
    }
}

// Moves the entries from `from` to before `upto` to `to`; where they stand there already, nothing moves.
fn shift<X: Copy>(s: &mut [X], from: usize, upto: usize, to: usize)
    requires forward { from ≤ upto }
    requires within { upto ≤ length s.old }
    requires fits { to + (upto - from) ≤ length s.old }
    ensures len { length s.new ≡ length s.old }
    ensures after { s.new ≡ paste s.old to (drop from s.old) (upto - from) }
{
    if to != from {
        s.copy_within(from..upto, to);
    }
}

// Puts one to three entries in the place of those from `at` to before `upto`, where there is room for two more.
// `Vec::splice` would allocate.
fn replace<X: Copy>(
    v: &mut Vec<X>,
    at: usize,
    upto: usize,
    head: X,
    second: Option<X>,
    third: Option<X>,
)
    requires order { at ≤ upto }
    requires part { upto ≤ length (vec_items v.old) }
    requires room { length (vec_items v.old) + 2 ≤ vec_capacity v.old }
    requires within { at + (1 + length (listed second) + length (listed third)) ≤ upto + 2 }
    ensures items { vec_items v.new ≡ splice (vec_items v.old) at upto (head ∷ (listed second ++ listed third)) }
    ensures capacity { vec_capacity v.new ≡ vec_capacity v.old }
{
    let count = v.len();
    let next = at + 1 + usize::from(second.is_some());
    let rest = next + usize::from(third.is_some());
    v.push_reserved(head);
    v.push_reserved(head);
    let s = v.as_mut_slice();
    shift(s, upto, count, rest);
    s[at] = head;
    write_held(s, at + 1, second);
    write_held(s, next, third);
    v.truncate(rest + (count - upto));
}

// Leaves at the front what each extent has from the target `limit` on, and answers how many extents that are.
// The loop counts by hand: `Vec::retain_mut` takes up to twice the time.
fn sieve<T: Ordered>(s: &mut [Extent<T>], limit: T) -> usize
    requires { all_in_range T.Target.advanced T.Target.fits (2 ^ 32 - 1) s.old ≡ true }
    ensures { take result s.new ≡ sieved T.Target.advanced (λ t. T.short t limit) s.old }
{
    let mut to = 0;
    for i in 0..s.len() {
        if let Some(e) = s[i].from_target(limit) {
            s[to] = e;
            to += 1;
        }
    }
    to
}
