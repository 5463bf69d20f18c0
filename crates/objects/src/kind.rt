// The kinds of object, and the number that a header has for each.
ghost use Rattle.std.specs.Prelude.{◌≡◌, ◌≢◌, MatchResult};
ghost use Rattle.objects.specs.declared.kind.Kind.{Kind};
ghost use Rattle.objects.specs.Layout.{kind_number};

use crate::damaged::Damaged;
use crate::entry::Carrier;

// An object carries blocks, or is a checkpoint.
#[derive(Clone, Copy, PartialEq, Eq, Debug)]
pub enum Kind {
    Carrier(Carrier),
    Checkpoint,
}

impl From<Kind> for u32 {
    ghost from_gives = { λ kind number. number ≡ kind_number kind };

    fn from(kind: Kind) -> u32 {
        match kind {
            Kind::Carrier(carrier) => carrier as u32,
            Kind::Checkpoint => 3,
        }
    }
}

impl TryFrom<u32> for Kind {
    type Error = Damaged;

    ghost try_from_gives = { λ number r. MatchResult r (λ kind. kind_number kind ≡ number)
        (λ _. (kind : Kind) → kind_number kind ≢ number) };

    fn try_from(number: u32) -> Result<Kind, Damaged> {
        match number {
            1 => Ok(Kind::Carrier(Carrier::Data)),
            2 => Ok(Kind::Carrier(Carrier::Clean)),
            3 => Ok(Kind::Checkpoint),
            _ => Err(Damaged),
        }
    }
}
