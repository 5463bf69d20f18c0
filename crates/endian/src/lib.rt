// Little-endian numbers in slices of bytes: each is put and read at a place, and refused where it would pass the end.
#![tactic(auto)]

ghost use Rattle.std.specs.Prelude.{◌≡◌, ℕ, ◌+◌, ◌<◌, ◌≤◌, length, take, drop, is_some, IfSome, nat_le};
ghost use Rattle.std.proofs.Common.{rules};
ghost use Rattle.endian.specs.Fields.{FieldsStand, le, lies, placed};

// Whether `width` bytes from `at` on lie in `length` bytes.
fn fits(at: usize, width: usize, length: usize) -> bool
    ensures { result ≡ nat_le (at + width) length }
{
    at <= length && width <= length - at
}

// Copies `part` to `at`, and answers whether it has room there; without room the buffer stays as it was.
pub fn put_part(buf: &mut [u8], at: usize, part: &[u8]) -> bool
    ensures put { buf.new ≡ placed at (length part.now) part.now buf.old }
    ensures room { result ≡ lies at (length part.now) buf.old }
{
    if !fits(at, part.len(), buf.len()) {
        return false;
    }
    buf[at..at + part.len()].copy_from_slice(part);
    true
}

// A number of `N` bytes.
pub trait Number<const N: usize>: Copy {
    // The number, as a natural number.
    ghost value: { Self → ℕ };

    // Its bytes, the lowest first.
    fn to_bytes(self) -> [u8; N]
        ensures { result ≡ le N (value self) };

    // The number that the bytes write.
    fn of_bytes(bytes: [u8; N]) -> Self
        ensures { le N (value result) ≡ bytes.entry };

    // No number has more than eight.
    ghost short: { N ≤ 8 };
}

impl Number<2> for u16 {
    ghost value = { λ n. n };

    ghost short = { Prim.search rules };

    #[tactic(auto, unfolding(crate::specs::Fields::le))]
    fn to_bytes(self) -> [u8; 2]
        ensures { result ≡ le 2 self }
    {
        u16::to_le_bytes(self)
    }

    #[tactic(auto, using(std::proofs::lemmas::Nat::le_bytes_2), unfolding(crate::specs::Fields::le))]
    fn of_bytes(bytes: [u8; 2]) -> u16
        ensures { le 2 result ≡ bytes }
    {
        u16::from_le_bytes(bytes)
    }
}

impl Number<4> for u32 {
    ghost value = { λ n. n };

    ghost short = { Prim.search rules };

    #[tactic(auto, unfolding(crate::specs::Fields::le))]
    fn to_bytes(self) -> [u8; 4]
        ensures { result ≡ le 4 self }
    {
        u32::to_le_bytes(self)
    }

    #[tactic(auto, using(std::proofs::lemmas::Nat::le_bytes_4), unfolding(crate::specs::Fields::le))]
    fn of_bytes(bytes: [u8; 4]) -> u32
        ensures { le 4 result ≡ bytes }
    {
        u32::from_le_bytes(bytes)
    }
}

impl Number<8> for u64 {
    ghost value = { λ n. n };

    ghost short = { Prim.search rules };

    #[tactic(auto, unfolding(crate::specs::Fields::le))]
    fn to_bytes(self) -> [u8; 8]
        ensures { result ≡ le 8 self }
    {
        u64::to_le_bytes(self)
    }

    fn of_bytes(bytes: [u8; 8]) -> u64
        ensures { le 8 result ≡ bytes }
    {
        u64::from_le_bytes(bytes)
    }
}

// Puts a number at `at`, and answers whether it has room there; without room the buffer stays as it was.
pub fn put<T: Number<N>, const N: usize>(buf: &mut [u8], at: usize, value: T) -> bool
    ensures put { buf.new ≡ placed at N (le N (T.value value)) buf.old }
    ensures room { result ≡ lies at N buf.old }
{
    put_part(buf, at, &value.to_bytes())
}

// The number in the bytes at `at`, or none where they pass the end.
pub fn get<T: Number<N>, const N: usize>(buf: &[u8], at: usize) -> Option<T>
    ensures room { is_some result ≡ lies at N buf.now }
    ensures bytes { IfSome result (λ v. take N (drop at buf.now) ≡ le N (T.value v)) }
{
    if !fits(at, N, buf.len()) {
        return None;
    }
    let mut field = [0; N];
    field.copy_from_slice(&buf[at..at + N]);
    Some(T::of_bytes(field))
}

// At every width a number has one writing, which reads back as that number, and every text of that many bytes is one.
pub fn little_endian()
    ensures { FieldsStand }
{}
