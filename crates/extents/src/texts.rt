// How targets and extents are written.
ghost use Rattle.std.specs.Prelude.{Some};
ghost use Rattle.extents.specs.Texts.{place_text, record_text, extent_text};

use crate::extent::Extent;
use crate::target::{Place, Record};
use std::fmt;

impl fmt::Display for Place {
    ghost output = { λ p. Some (place_text p) };

    fn fmt<W: fmt::Write>(&self, f: &mut fmt::Formatter<W>) -> fmt::Result {
        let Place { object, offset } = *self;
        write!(f, "{object}@{offset}")
    }
}

impl fmt::Display for Record {
    ghost output = { λ r. Some (record_text r) };

    fn fmt<W: fmt::Write>(&self, f: &mut fmt::Formatter<W>) -> fmt::Result {
        let number = self.number;
        write!(f, "{number}")
    }
}

impl<T: fmt::Display> fmt::Display for Extent<T> {
    ghost output = { extent_text T.output };

    fn fmt<W: fmt::Write>(&self, f: &mut fmt::Formatter<W>) -> fmt::Result {
        let first = self.first;
        let length = self.length;
        let target = &self.target;
        write!(f, "({first},{length},{target})")
    }
}
