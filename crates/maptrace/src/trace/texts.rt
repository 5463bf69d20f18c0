// How an outcome is written.
ghost use Rattle.maptrace.specs.Texts.{outcome_text};

use crate::trace::Outcome;
use std::fmt;

impl fmt::Display for Outcome {
    ghost output = { outcome_text };

    fn fmt<W: fmt::Write>(&self, f: &mut fmt::Formatter<W>) -> fmt::Result {
        match *self {
            Outcome::Inserted(e) => write!(f, "inserted {e}"),
            Outcome::Recorded(e) => write!(f, "recorded {e}"),
            Outcome::Dropped(limit) => write!(f, "dropped the records below {limit}"),
            Outcome::Found(block, place, record) => {
                write!(f, "block {block} has ")?;
                match place {
                    Some(p) => write!(f, "place {p} and ")?,
                    None => write!(f, "no place and ")?,
                }
                match record {
                    Some(r) => write!(f, "record {r}"),
                    None => write!(f, "no record"),
                }
            }
        }
    }
}
