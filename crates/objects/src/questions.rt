// What bytes of an object say, without the whole object.
ghost use Rattle.std.specs.Prelude.{◌≡◌, ℕ, ◌+◌, ◌*◌, take, drop, is_some, IfSome};
ghost use Rattle.endian.specs.Fields.{lies};
ghost use Rattle.objects.specs.Layout.{header_bytes, payload_offset};
ghost use Rattle.objects.specs.Seen.{header_at};

use crate::header::Header;
use crate::part::{Part, part_of};

// The header at the front, if there are bytes enough for one.
pub fn header_of(bytes: &[u8]) -> Option<Header>
    ensures room { is_some result ≡ lies 0 24 bytes.now }
    ensures stands { IfSome result (λ header. header_bytes header ≡ take 24 bytes.now) }
    ensures says { IfSome result (λ header. header ≡ header_at (take 24 bytes.now)) }
{
    part_of(bytes, 0)
}

// The entry that has `index` before it, of an object with entries of that kind, if the bytes reach so far.
pub fn entry_of<P: Part<N>, const N: usize>(bytes: &[u8], index: u32) -> Option<P>
    ensures room { is_some result ≡ lies (24 + N * index) N bytes.now }
    ensures stands { IfSome result (λ entry. P.writing entry ≡ take N (drop (24 + N * index) bytes.now)) }
{
    part_of(bytes, 24 + N * index as usize)
}

// Where the payload block lies that has `before` blocks before it, in an object of so many entries.
pub fn payload_offset(entries: u32, before: u32) -> u64
    ensures { result ≡ payload_offset entries before }
{
    24 + 8 * u64::from(entries) + 512 * u64::from(before)
}
