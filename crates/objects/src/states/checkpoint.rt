// Building a checkpoint from the table of a map of places, in a lent buffer.
ghost use borrow.Rule.Slice.PartMut.{put_mid};
ghost use Rattle.std.specs.Prelude.{◌≡◌, ℕ, ◌+◌, ◌*◌, ◌≤◌, length};
ghost use Rattle.std.specs.List.{flat_map};
ghost use Rattle.objects.specs.Building.{checkpoint_ready, Checkpoints};
ghost use Rattle.objects.specs.Layout.{checkpoint, extent_bytes, header_of};
ghost use Rattle.objects.specs.Seen.{chained, no_extent};

use super::{Closed, Complete, NumberToken, Numbered};
use crate::header::Header;
use crate::kind::Kind;
use crate::part::Part;
use crate::{FIRST_LIMIT, MOST_BLOCKS, chained};
use endian::put_part;
use extents::{Extent, Place};

// What a checkpoint is built of: its first record, the table of a map, and the size of the disk.
#[derive(Clone, Copy)]
struct Snapshot<'a> {
    first: u64,
    table: &'a [Extent<Place>],
    blocks: u32,
}

// Puts the extents of a table one after another, after the header.
fn put_table(buf: &mut [u8], table: &[Extent<Place>])
    requires { 24 + 16 * length table.now ≤ length buf.old }
    ensures { buf.new ≡ put_mid 24 (16 * length table.now) buf.old (flat_map extent_bytes table.now) }
{
    for (i, extent) in table.iter().enumerate() {
        put_part(buf, 24 + 16 * i, &extent.to_bytes());
    }
}

impl Snapshot<'_> {
    // Whether the extents keep their rules, each after the one before.
    fn stands(&self, number: u32) -> bool
        ensures { result ≡ chained number self.now.blocks no_extent self.now.table.now }
    {
        chained(self.table.iter().copied(), number, self.blocks)
    }

    // How many bytes the checkpoint has.
    fn size(&self) -> usize
        ensures { result ≡ 24 + 16 * length self.now.table.now }
    {
        24 + 16 * self.table.len()
    }

    // Whether a checkpoint of the number may be built.
    fn ready(&self, number: u32, buf: &[u8]) -> bool
        ensures { result ≡ checkpoint_ready number self.now.first self.now.blocks self.now.table.now buf.now }
    {
        let disk = self.blocks >= 1 && self.blocks <= MOST_BLOCKS;
        let few = self.table.len() <= MOST_BLOCKS as usize;
        let small = number >= 1 && few && self.first < FIRST_LIMIT;
        disk && small && self.size() <= buf.len() && self.stands(number)
    }

    // The header of the checkpoint.
    fn header(&self, number: u32) -> Header
        requires { length self.now.table.now ≤ 1024 }
        ensures { result ≡ header_of (checkpoint number self.now.first self.now.blocks self.now.table.now) }
    {
        Header {
            kind: u32::from(Kind::Checkpoint),
            number,
            first: self.first,
            entries: self.table.len() as u32,
            tally: self.blocks,
        }
    }

    // The checkpoint, in the buffer.
    fn built(&self, token: NumberToken, buf: &mut [u8]) -> Result<Closed, NumberToken>
        ensures { Checkpoints token self.now.first self.now.blocks self.now.table.now buf.old result buf.new }
    {
        if !self.ready(token.number, buf) {
            return Err(token);
        }
        put_part(buf, 0, &self.header(token.number).to_bytes());
        put_table(buf, self.table);
        Ok(Numbered {
            token,
            stage: Complete {
                length: self.size(),
            },
        })
    }
}

impl NumberToken {
    // The checkpoint of a map's table on a disk of so many blocks, complete in the buffer; a table that breaks a rule is refused.
    pub fn checkpoint(
        self,
        buf: &mut [u8],
        first: u64,
        table: &[Extent<Place>],
        blocks: u32,
    ) -> Result<Closed, NumberToken>
        ensures { Checkpoints self first blocks table.now buf.old result buf.new }
    {
        let snapshot = Snapshot {
            first,
            table,
            blocks,
        };
        snapshot.built(self, buf)
    }
}
