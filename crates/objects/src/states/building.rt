// Building an object that carries blocks, in a lent buffer.
ghost use Rattle.std.specs.Prelude.{◌≡◌, ℕ, ◌+◌, ◌-◌, ◌*◌, ◌^◌, ◌<◌, Bool, take};
ghost use Rattle.objects.specs.Building.{Adds, after_number, begun, Closes, draft_header, Enters, filling, may_add, may_close, may_enter};
ghost use Rattle.objects.specs.Layout.{payload_offset};

use super::{Begun, Closed, Complete, Draft, Filled, Filling, NumberToken, Numbered, Numbers};
use crate::MOST_CARRIED;
use crate::entry::{Carrier, Entry};
use crate::header::Header;
use crate::kind::Kind;
use crate::part::Part;
use crate::questions::payload_offset;
use endian::put_part;

impl NumberToken {
    // An object of the number with no entries yet, for a disk of so many blocks.
    pub fn begin(self, carrier: Carrier, first: u64, blocks: u32) -> Begun
        ensures { result ≡ begun self carrier first blocks }
    {
        Numbered {
            token: self,
            stage: Draft {
                carrier,
                first,
                blocks,
                entries: 0,
                tally: 0,
            },
        }
    }
}

impl Draft {
    // Where the payload block lies that has `added` blocks before it.
    fn offset(self, added: u32) -> usize
        ensures { result ≡ payload_offset self.entries added }
    {
        payload_offset(self.entries, added) as usize
    }

    // Whether an entry may be added.
    fn may_enter(self, entry: Entry, buf: &[u8]) -> bool
        ensures { result ≡ may_enter self entry buf.now }
    {
        if self.entries >= MOST_CARRIED || !entry.fits(self.carrier.most_blocks(), self.blocks) {
            return false;
        }
        let room = 24 + 8 * self.entries as usize + 8 <= buf.len();
        u64::from(self.tally) + u64::from(entry.count) <= u64::from(MOST_CARRIED) && room
    }

    // Whether a payload block may be added.
    fn may_add(self, added: u32, block: &[u8], buf: &[u8]) -> bool
        ensures { result ≡ may_add self added block.now buf.now }
    {
        added < self.tally && block.len() == 512 && self.offset(added) + 512 <= buf.len()
    }

    // Whether an object may be closed.
    fn may_close(self, added: u32, buf: &[u8]) -> bool
        ensures { result ≡ may_close self added buf.now }
    {
        self.entries >= 1 && added == self.tally && self.offset(self.tally) <= buf.len()
    }

    // The header of an object that is built.
    fn header(self, number: u32) -> Header
        ensures { result ≡ draft_header number self }
    {
        Header {
            kind: u32::from(Kind::Carrier(self.carrier)),
            number,
            first: self.first,
            entries: self.entries,
            tally: self.tally,
        }
    }
}

impl Begun {
    // Adds an entry after those before it; an entry that breaks a rule changes nothing.
    pub fn add(mut self, buf: &mut [u8], entry: Entry) -> Result<Begun, Begun>
        ensures { Enters self entry buf.old result buf.new }
    {
        if !self.stage.may_enter(entry, buf) {
            return Err(self);
        }
        put_part(buf, 24 + 8 * self.stage.entries as usize, &entry.to_bytes());
        self.stage.entries += 1;
        self.stage.tally += entry.count;
        Ok(self)
    }

    // Ends the entries.
    pub fn fill(self) -> Filled
        ensures { result ≡ filling self }
    {
        let Numbered {
            token,
            stage: draft,
        } = self;
        Numbered {
            token,
            stage: Filling { draft, added: 0 },
        }
    }
}

impl Filled {
    // Adds a payload block after those before it; one that breaks a rule changes nothing.
    pub fn add(mut self, buf: &mut [u8], block: &[u8]) -> Result<Filled, Filled>
        ensures { Adds self block.now buf.old result buf.new }
    {
        let Filling { draft, added } = self.stage;
        if !draft.may_add(added, block, buf) {
            return Err(self);
        }
        put_part(buf, draft.offset(added), block);
        self.stage.added += 1;
        Ok(self)
    }

    // Writes the header, and so ends the object; one that lacks blocks is handed back.
    pub fn close(self, buf: &mut [u8]) -> Result<Closed, Filled>
        ensures { Closes self buf.old result buf.new }
    {
        let Filling { draft, added } = self.stage;
        if !draft.may_close(added, buf) {
            return Err(self);
        }
        let Numbered { token, stage: _ } = self;
        put_part(buf, 0, &draft.header(token.number).to_bytes());
        let length = draft.offset(draft.tally);
        Ok(Numbered {
            token,
            stage: Complete { length },
        })
    }
}

impl Closed {
    // The number of the object.
    pub fn number(&self) -> u32
        ensures { result ≡ self.now.token.number }
    {
        self.token.number
    }

    // The bytes to put: the object's, at the front of the buffer that it was built in.
    pub fn bytes<'a>(&self, buf: &'a [u8]) -> &'a [u8]
        ensures { result.now ≡ take self.now.stage.length buf.now }
    {
        buf.get(..self.stage.length).unwrap_or(buf)
    }

    // The number, spent: the object was put.
    pub fn put(self) -> u32
        ensures { result ≡ self.token.number }
    {
        let Numbered { token, stage: _ } = self;
        let NumberToken { number } = token;
        number
    }
}

impl<S: Drop> Numbered<S> {
    // Gives the object up, and frees its number.
    pub fn withdraw(self, numbers: &mut Numbers)
        ensures { numbers.new ≡ after_number (self.token.number - 1) }
    {
        let Numbered { token, stage: _ } = self;
        token.withdraw(numbers)
    }
}
