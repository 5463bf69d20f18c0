// What a block is mapped to: a place in an object, or a record of the log.
ghost use Rattle.std.specs.Prelude.{◌≡◌, ℕ, Bool, nat_lt};
ghost use Rattle.extents.specs.Laws.{Laws, fitting};
ghost use Rattle.extents.specs.Kinds.{place_advanced, place_same, place_fits, place_laws, record_advanced, record_same, record_fits, record_laws};
ghost use Rattle.extents.specs.Order.{record_below, record_short};
ghost use Rattle.std.proofs.Common.{rules};

// A kind of target, with the step from a block's target to the next block's.
pub trait Target: Copy {
    // A target, so many blocks on.
    ghost advanced: { Self → ℕ → Self };

    // Whether two targets are equal.
    ghost same: { Self → Self → Bool };

    // Whether the width of the kind holds a target.
    ghost fits: { Self → Bool };

    ghost laws: { Laws advanced same fits };

    // The target n blocks on, if its width holds it.
    fn advance(self, n: u32) -> Option<Self>
        ensures { result ≡ fitting fits (advanced self n) };

    // Whether `next` is this target n blocks on.
    fn leads_to(self, n: u32, next: Self) -> bool
        ensures { result ≡ same next (advanced self n) };
}

// A byte offset in a numbered object.
#[derive(Clone, Copy, PartialEq, Eq, Debug)]
pub struct Place {
    pub object: u32,
    pub offset: u32,
}

impl Target for Place {
    ghost advanced = { place_advanced };

    ghost same = { place_same };

    ghost fits = { place_fits };

    ghost laws = { place_laws };

    fn advance(self, n: u32) -> Option<Place> {
        let offset = self.offset.checked_add(n.checked_mul(512)?)?;
        Some(Place { offset, ..self })
    }

    fn leads_to(self, n: u32, next: Place) -> bool {
        self.advance(n) == Some(next)
    }
}

// A record of the log, by its number.
#[derive(Clone, Copy, PartialEq, Eq, Debug)]
pub struct Record {
    pub number: u64,
}

impl Target for Record {
    ghost advanced = { record_advanced };

    ghost same = { record_same };

    ghost fits = { record_fits };

    ghost laws = { record_laws };

    fn advance(self, n: u32) -> Option<Record> {
        let number = self.number.checked_add(u64::from(n))?;
        Some(Record { number })
    }

    fn leads_to(self, n: u32, next: Record) -> bool {
        self.advance(n) == Some(next)
    }
}

// A kind of target that has an order, in which advancing goes up.
pub trait Ordered: Target {
    // Whether one target is below another.
    ghost below: { Self → Self → Bool };

    // How many targets, from one on, are below another.
    ghost short: { Self → Self → ℕ };

    // How many targets, from this one on, are below `limit`.
    fn short_of(self, limit: Self) -> u64
        ensures { result ≡ short self limit };

    ghost climbs: { (t u : Self) (i : ℕ) → below (Self.Target.advanced t i) u ≡ nat_lt i (short t u) };
}

impl Ordered for Record {
    ghost below = { record_below };

    ghost short = { record_short };

    ghost climbs = { Prim.search rules };

    fn short_of(self, limit: Record) -> u64 {
        limit.number.saturating_sub(self.number)
    }
}
