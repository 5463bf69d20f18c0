// The words that may stand in a line, by their kinds.
ghost use Rattle.std.specs.Prelude.{◌≡◌, ℕ, List};
ghost use Rattle.commands.specs.Calls.{verb_word, store_word, drive_word, fate_word};
ghost use Rattle.commands.specs.Reading.{named, verbs, stores, drives, fates};

use crate::call::{DriveKind, Fate, StoreKind, Verb};

// A kind of word: how each is spelt, and all of them. Each kind has a list of its own, since only the list says which word is which.
pub(crate) trait Keyword: Copy {
    ghost spell: { Self → List ℕ };

    ghost all: { List Self };

    // The word of the kind that is spelt so.
    fn of_word(word: &[u8]) -> Option<Self>
        ensures { result ≡ named spell all word.now };
}

impl Keyword for Verb {
    ghost spell = { verb_word };

    ghost all = { verbs };

    fn of_word(word: &[u8]) -> Option<Verb> {
        match word {
            b"make" => Some(Verb::Make),
            b"write" => Some(Verb::Write),
            b"read" => Some(Verb::Read),
            b"flush" => Some(Verb::Flush),
            b"seal" => Some(Verb::Seal),
            b"poll" => Some(Verb::Poll),
            b"checkpoint" => Some(Verb::Checkpoint),
            b"clean" => Some(Verb::Clean),
            b"reap" => Some(Verb::Reap),
            b"cut" => Some(Verb::Cut),
            b"mount" => Some(Verb::Mount),
            _ => None,
        }
    }
}

impl Keyword for StoreKind {
    ghost spell = { store_word };

    ghost all = { stores };

    fn of_word(word: &[u8]) -> Option<StoreKind> {
        match word {
            b"paged" => Some(StoreKind::Paged),
            b"packed" => Some(StoreKind::Packed),
            _ => None,
        }
    }
}

impl Keyword for DriveKind {
    ghost spell = { drive_word };

    ghost all = { drives };

    fn of_word(word: &[u8]) -> Option<DriveKind> {
        match word {
            b"buffered" => Some(DriveKind::Buffered),
            b"direct" => Some(DriveKind::Direct),
            _ => None,
        }
    }
}

impl Keyword for Fate {
    ghost spell = { fate_word };

    ghost all = { fates };

    fn of_word(word: &[u8]) -> Option<Fate> {
        match word {
            b"kept" => Some(Fate::Kept),
            b"lost" => Some(Fate::Lost),
            _ => None,
        }
    }
}
