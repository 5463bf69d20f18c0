// A list of bytes, as a line has it.
ghost use Rattle.std.specs.Prelude.{◌≡◌, true, [], ◌∷◌, length, MatchOption};
ghost use Rattle.std.specs.Iterator.{YieldsFirst, item_count};
ghost use Rattle.commands.specs.Grammar.{bytes_only};
ghost use Rattle.commands.specs.Values.{values, Listing};

use crate::{numeral, tail};

// A list of bytes that borrows its text, which stands between the brackets: the numbers of its bytes, one space between, and nothing else.
#[derive(Clone, Copy)]
pub struct ByteList<'a> {
    pub(crate) text: &'a [u8],
    pub ghost listing: { Listing text.now },
    pub ghost small: { bytes_only (values text.now) ≡ true },
}

impl<'a> ByteList<'a> {
    // How many bytes the list has: one more than its spaces, so none is read. A loop, since the count of a filter takes twice its instructions.
    pub fn len(&self) -> usize
        ensures { result ≡ length (values self.now.text.now) }
    {
        if self.text.is_empty() {
            return 0;
        }
        let mut spaces = 0;
        for b in self.text {
            if *b == b' ' {
                spaces += 1;
            }
        }
        spaces + 1
    }

    // The first byte, and the list of the others.
    fn split_first(&self) -> Option<(u8, ByteList<'a>)>
        ensures { MatchOption result (values self.now.text.now ≡ []) (λ p. values self.now.text.now ≡ p.0 ∷ values p.1.text.now) }
    {
        let (byte, rest) = numeral(self.text, 255)?;
        Some((byte as u8, ByteList { text: tail(rest) }))
    }
}

impl Iterator for ByteList<'_> {
    type Item = u8;

    ghost next_gives = { YieldsFirst (λ l. values l.text.now) };

    ghost remaining = { item_count (λ l. values l.text.now) };

    // Takes the first byte off the list.
    fn next(&mut self) -> Option<u8> {
        let (byte, rest) = self.split_first()?;
        *self = rest;
        Some(byte)
    }
}
