// Reading whole objects, and telling which are damaged.
ghost use Rattle.std.specs.Prelude.{◌≡◌, ℕ, ◌+◌, ◌*◌, ◌<◌, ◌≤◌, true, length, drop, slice_index, IfOk, IfErr};
ghost use Rattle.std.specs.Simd.{first_chunks};
ghost use Rattle.objects.specs.Layout.{kind_number};
ghost use Rattle.objects.specs.Reading.{IsDamaged, NoCheckpoint, Read, ReadCheckpoint, Undamaged};
ghost use Rattle.objects.specs.Seen.{carrier_shape, carrier_sound, checkpoint_shape, checkpoint_sound, entries_said, entries_sum, header_at, kind_sound, sound};

use crate::damaged::Damaged;
use crate::entry::{Carrier, Entry};
use crate::header::Header;
use crate::kind::Kind;
use crate::part::Part;
use crate::questions::{header_of, payload_offset};
use crate::{FIRST_LIMIT, MOST_BLOCKS, MOST_CARRIED, chained};
use extents::Extent;

pub mod applying;

// Bytes that begin with a header of some kind.
#[derive(Clone, Copy)]
struct Candidate<'a> {
    bytes: &'a [u8],
    header: Header,
    kind: Kind,
    ghost room: { 24 ≤ length bytes.now },
    ghost each: { (i : ℕ) → slice_index bytes.now i < 256 },
    ghost read: { header ≡ header_at bytes.now },
    ghost known: { kind_number kind ≡ header.kind },
}

// Whether the entries keep their rules and have `tally` blocks together.
fn entries_sum(entries: &[[u8; 8]], most: u32, blocks: u32, tally: u32) -> bool
    requires { length entries.now ≤ 32 }
    ensures { result ≡ entries_sum most blocks tally (entries_said entries.now) }
{
    let mut sum = 0u64;
    for bytes in entries {
        let entry = Entry::of_bytes(*bytes);
        if !entry.fits(most, blocks) {
            return false;
        }
        sum += u64::from(entry.count);
    }
    sum == u64::from(tally)
}

impl<'a> Candidate<'a> {
    // What the bytes are a candidate for; without a header of some kind they are no object.
    fn of(bytes: &'a [u8]) -> Result<Candidate<'a>, Damaged>
        ensures same { IfOk result (λ candidate. candidate.bytes.now ≡ bytes.now) }
        ensures none { IfErr result (λ _. (blocks name : ℕ) → IsDamaged blocks name bytes.now) }
    {
        let header = header_of(bytes).ok_or(Damaged)?;
        let kind = Kind::try_from(header.kind)?;
        Ok(Candidate {
            bytes,
            header,
            kind,
        })
    }

    // The bytes of each entry, of which all have `N`.
    fn entries<const N: usize>(&self) -> &'a [[u8; N]]
        requires some { 0 < N }
        requires room { 24 + N * self.now.header.entries ≤ length self.now.bytes.now }
        ensures { result.now ≡ first_chunks N self.now.header.entries (drop 24 self.now.bytes.now) }
    {
        let end = 24 + N * self.header.entries as usize;
        self.bytes[24..end].as_chunks().0
    }

    // Whether the counts of an object that carries blocks are in range, and so many bytes are what they ask for.
    fn carrier_shape(&self) -> bool
        ensures { result ≡ carrier_shape self.now.header (length self.now.bytes.now) }
    {
        let Header { entries, tally, .. } = self.header;
        let few = entries >= 1 && entries <= MOST_CARRIED && tally <= MOST_CARRIED;
        few && self.bytes.len() as u64 == payload_offset(entries, tally)
    }

    // Whether the bytes keep the rules of an object that carries blocks.
    fn carrier_sound(&self, carrier: Carrier, blocks: u32) -> bool
        ensures { result ≡ carrier_sound carrier blocks self.now.bytes.now }
    {
        self.carrier_shape()
            && entries_sum(
                self.entries(),
                carrier.most_blocks(),
                blocks,
                self.header.tally,
            )
    }

    // Whether the counts and the first record of a checkpoint are in range, and so many bytes are what they ask for.
    fn checkpoint_shape(&self, blocks: u32) -> bool
        ensures { result ≡ checkpoint_shape self.now.header blocks (length self.now.bytes.now) }
    {
        let Header {
            first,
            entries,
            tally,
            ..
        } = self.header;
        let few = tally == blocks && entries <= MOST_BLOCKS && first < FIRST_LIMIT;
        few && self.bytes.len() as u64 == 24 + 16 * u64::from(entries)
    }

    // Whether the bytes keep the rules of a checkpoint.
    fn checkpoint_sound(&self, name: u32, blocks: u32) -> bool
        ensures { result ≡ checkpoint_sound name blocks self.now.bytes.now }
    {
        self.checkpoint_shape(blocks)
            && chained(
                self.entries().iter().map(|bytes| Extent::of_bytes(*bytes)),
                name,
                blocks,
            )
    }

    // Whether the bytes keep the rules of their kind.
    fn kind_sound(&self, name: u32, blocks: u32) -> bool
        ensures { result ≡ kind_sound self.now.header.kind name blocks self.now.bytes.now }
    {
        match self.kind {
            Kind::Carrier(carrier) => self.carrier_sound(carrier, blocks),
            Kind::Checkpoint => self.checkpoint_sound(name, blocks),
        }
    }

    // Whether the bytes are an object of the name, on a disk of so many blocks.
    fn sound(&self, name: u32, blocks: u32) -> bool
        ensures { result ≡ sound blocks name self.now.bytes.now }
    {
        blocks >= 1
            && blocks <= MOST_BLOCKS
            && self.header.number == name
            && name >= 1
            && self.kind_sound(name, blocks)
    }

    // Refuses bytes that are no undamaged object of the name.
    fn check(&self, name: u32, blocks: u32) -> Result<(), Damaged>
        ensures good { IfOk result (λ _. Undamaged blocks name self.now.bytes.now self.now.header) }
        ensures named { IfOk result (λ _. self.now.header.number ≡ name) }
        ensures sound { IfOk result (λ _. sound blocks name self.now.bytes.now ≡ true) }
        ensures bad { IfErr result (λ _. IsDamaged blocks name self.now.bytes.now) }
    {
        if self.sound(name, blocks) {
            Ok(())
        } else {
            Err(Damaged)
        }
    }

    // Refuses bytes that are no undamaged checkpoint of the name, on a disk of any size.
    fn check_checkpoint(&self, name: u32) -> Result<(), Damaged>
        ensures good { IfOk result (λ _. (self.now.header.kind ≡ 3) × Undamaged self.now.header.tally name self.now.bytes.now self.now.header) }
        ensures bad { IfErr result (λ _. NoCheckpoint name self.now.bytes.now) }
    {
        match self.kind {
            Kind::Carrier(_) => Err(Damaged),
            Kind::Checkpoint => self.check(name, self.header.tally),
        }
    }
}

// The header of the object with these bytes, on a disk of so many blocks, or that no object of the name has them.
pub fn read(bytes: &[u8], name: u32, blocks: u32) -> Result<Header, Damaged>
    ensures { Read blocks name bytes.now result }
{
    let object = Candidate::of(bytes)?;
    object.check(name, blocks)?;
    Ok(object.header)
}

// The header of the checkpoint with these bytes, whose tally is the size of its disk, or that no checkpoint of the name has them.
pub fn read_checkpoint(bytes: &[u8], name: u32) -> Result<Header, Damaged>
    ensures { ReadCheckpoint name bytes.now result }
{
    let object = Candidate::of(bytes)?;
    object.check_checkpoint(name)?;
    Ok(object.header)
}
