// The bytes of a line that is being read.
ghost use Rattle.std.specs.Prelude.{◌≤◌};

// The first 256 bytes of a line, which tell whether it is too long.
// An array with a count, since the kit's vector of a fixed room writes over each byte that it held when it is cleared.
#[derive(Drop)]
pub struct LineBuffer {
    pub(crate) bytes: [u8; 256],
    pub(crate) count: usize,
    ghost within: { count ≤ 256 },
}
