// The parts of an object that have a fixed count of bytes: its header, and the entries of both kinds.
ghost use Rattle.std.specs.Prelude.{◌≡◌, ℕ, ◌+◌, ◌^◌, ◌<◌, ◌≤◌, ◌++◌, List, length, take, drop, slice_index, is_some, IfSome};
ghost use Rattle.std.proofs.Common.{rules};
ghost use Rattle.endian.specs.Fields.{le, lies};
ghost use Rattle.objects.specs.Layout.{entry_bytes, extent_bytes, header_bytes};
ghost use Rattle.objects.specs.Seen.{field, entry_at, extent_at, header_at};

use crate::entry::Entry;
use crate::header::Header;
use endian::{Number, get, put_part};
use extents::{Extent, Place};

// A part of an object that has `N` bytes.
pub trait Part<const N: usize>: Copy {
    // Its bytes.
    ghost writing: { Self → List ℕ };

    // What so many bytes say.
    ghost said: { List ℕ → Self };

    // Its bytes.
    fn to_bytes(self) -> [u8; N]
        ensures { result ≡ writing self };

    // The part that the bytes say.
    fn of_bytes(bytes: [u8; N]) -> Self
        ensures says { result ≡ said bytes.entry }
        ensures stands { writing result ≡ bytes.entry };

    // No part is longer than the header.
    ghost short: { N ≤ 24 };
}

// The number at a place that lies in the bytes.
fn number_at<T: Number<N>, const N: usize>(bytes: &[u8], at: usize) -> T
    requires { at + N ≤ length bytes.now }
    ensures bytes { take N (drop at bytes.now) ≡ le N (T.value result) }
    ensures says { T.value result < 256 ^ N → T.value result ≡ field N at bytes.now }
{
    get(bytes, at).unwrap()
}

// One array after another.
fn joined<const A: usize, const B: usize, const N: usize>(front: [u8; A], back: [u8; B]) -> [u8; N]
    requires whole { A + B ≡ N }
    requires short { N ≤ 24 }
    ensures { result ≡ front.entry ++ back.entry }
{
    let mut bytes = [0; N];
    put_part(&mut bytes, 0, &front);
    put_part(&mut bytes, A, &back);
    bytes
}

impl Part<24> for Header {
    ghost writing = { header_bytes };

    ghost said = { header_at };

    ghost short = { Prim.search rules };

    fn to_bytes(self) -> [u8; 24]
        ensures { result ≡ header_bytes self }
    {
        let counts: [u8; 8] = joined(self.entries.to_bytes(), self.tally.to_bytes());
        let records: [u8; 16] = joined(self.first.to_bytes(), counts);
        let numbers: [u8; 20] = joined(self.number.to_bytes(), records);
        joined(self.kind.to_bytes(), numbers)
    }

    fn of_bytes(bytes: [u8; 24]) -> Header
        ensures says { result ≡ header_at bytes }
        ensures stands { header_bytes result ≡ bytes }
    {
        Header {
            kind: number_at(&bytes, 0),
            number: number_at(&bytes, 4),
            first: number_at(&bytes, 8),
            entries: number_at(&bytes, 16),
            tally: number_at(&bytes, 20),
        }
    }
}

impl Part<8> for Entry {
    ghost writing = { entry_bytes };

    ghost said = { λ bytes. entry_at bytes 0 };

    ghost short = { Prim.search rules };

    fn to_bytes(self) -> [u8; 8]
        ensures { result ≡ entry_bytes self }
    {
        joined(self.address.to_bytes(), self.count.to_bytes())
    }

    #[tactic(auto, using(crate::proofs::Parts::entry_whole))]
    fn of_bytes(bytes: [u8; 8]) -> Entry
        ensures says { result ≡ entry_at bytes 0 }
        ensures stands { entry_bytes result ≡ bytes }
    {
        Entry {
            address: number_at(&bytes, 0),
            count: number_at(&bytes, 4),
        }
    }
}

impl Part<16> for Extent<Place> {
    ghost writing = { extent_bytes };

    ghost said = { λ bytes. extent_at bytes 0 };

    ghost short = { Prim.search rules };

    fn to_bytes(self) -> [u8; 16]
        ensures { result ≡ extent_bytes self }
    {
        let place: [u8; 8] = joined(self.target.object.to_bytes(), self.target.offset.to_bytes());
        let run: [u8; 12] = joined(self.length.to_bytes(), place);
        joined(self.first.to_bytes(), run)
    }

    fn of_bytes(bytes: [u8; 16]) -> Extent<Place>
        ensures says { result ≡ extent_at bytes 0 }
        ensures stands { extent_bytes result ≡ bytes }
    {
        Extent {
            first: number_at(&bytes, 0),
            length: number_at(&bytes, 4),
            target: Place {
                object: number_at(&bytes, 8),
                offset: number_at(&bytes, 12),
            },
        }
    }
}

// The part at a place, if the bytes reach so far.
pub fn part_of<P: Part<N>, const N: usize>(bytes: &[u8], at: usize) -> Option<P>
    ensures room { is_some result ≡ lies at N bytes.now }
    ensures stands { IfSome result (λ part. P.writing part ≡ take N (drop at bytes.now)) }
    ensures says { IfSome result (λ part. part ≡ P.said (take N (drop at bytes.now))) }
{
    if at > bytes.len() || bytes.len() - at < N {
        return None;
    }
    let mut part = [0; N];
    part.copy_from_slice(&bytes[at..at + N]);
    Some(P::of_bytes(part))
}
