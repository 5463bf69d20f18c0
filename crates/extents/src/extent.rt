// An extent: a run of blocks whose targets follow one another.
ghost use Rattle.std.specs.Prelude.{◌≡◌, ℕ, ◌+◌, ◌-◌, ◌^◌, ◌<◌, ◌≤◌, true, cond, [], ◌∷◌};
ghost use Rattle.extents.specs.Map.{end, goes_on, may_follow, in_range};
ghost use Rattle.extents.specs.Steps.{joined, joined_onto, left_of, right_of, listed, EndsInWidth, kept_of};

use crate::target::{Ordered, Target};

// `length` blocks from `first` on, the first of which has the target `target`.
#[derive(Clone, Copy, PartialEq, Eq, Debug)]
pub struct Extent<T> {
    pub first: u32,
    pub length: u32,
    pub target: T,
}

impl<T: Target> Extent<T> {
    // The block after the extent's last.
    pub(crate) fn end(self) -> u64
        ensures { result ≡ end self }
    {
        u64::from(self.first) + u64::from(self.length)
    }

    // Whether `next` begins where the extent ends, with the target that is next there.
    pub(crate) fn goes_on(self, next: Extent<T>) -> bool
        ensures { result ≡ goes_on T.advanced T.same self next }
    {
        self.end() == u64::from(next.first) && self.target.leads_to(self.length, next.target)
    }

    // Whether `next` may stand right after the extent in a table.
    pub(crate) fn may_precede(self, next: Extent<T>) -> bool
        ensures { result ≡ may_follow T.advanced T.same self (next ∷ []) }
    {
        self.end() <= u64::from(next.first) && !self.goes_on(next)
    }

    // What the extent has before the block `a`.
    pub(crate) fn before(self, a: u32) -> Option<Extent<T>>
        ensures { result ≡ left_of a self }
    {
        if self.first < a {
            let length = a - self.first;
            Some(Extent { length, ..self })
        } else {
            None
        }
    }
}

impl<T: Ordered> Extent<T> {
    // What the extent has from the target `limit` on.
    pub(crate) fn from_target(self, limit: T) -> Option<Extent<T>>
        requires ends { end self < 2 ^ 32 }
        requires fits { T.short self.target limit < self.length → T.Target.fits (T.Target.advanced self.target (T.short self.target limit)) ≡ true }
        ensures { result ≡ kept_of T.Target.advanced (λ t. T.short t limit) self }
    {
        let short = self.target.short_of(limit);
        if short < u64::from(self.length) {
            let short = short as u32;
            Some(Extent {
                first: self.first + short,
                length: self.length - short,
                target: self.target.advance(short).unwrap(),
            })
        } else {
            None
        }
    }
}
