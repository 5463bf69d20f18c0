// A line is gathered byte by byte.
#![tactic(auto)]

ghost use Rattle.std.specs.Prelude.{◌≡◌, ◌≤◌, [], ◌∷◌, ◌++◌, length, take};
ghost use Rattle.lines.specs.Buffers.{held, FrontTells};

pub mod buffer;

use crate::buffer::LineBuffer;

// Puts one more byte into the buffer, if there is room.
fn put(buffer: &mut LineBuffer, b: u8)
    ensures { held buffer.new ≡ take 256 (held buffer.old ++ b ∷ []) }
{
    if buffer.count < 256 {
        buffer.bytes[buffer.count] = b;
        buffer.count += 1;
    }
}

impl LineBuffer {
    // A buffer with nothing in it.
    pub fn new() -> LineBuffer
        ensures { held result ≡ [] }
    {
        LineBuffer {
            bytes: [0; 256],
            count: 0,
        }
    }

    // Takes one more byte of the line; after 256 the line is too long, and further bytes tell nothing.
    pub fn push(&mut self, b: u8)
        ensures { held self.new ≡ take 256 (held self.old ++ b ∷ []) }
    {
        put(self, b);
    }

    // Begins a new line.
    pub fn clear(&mut self)
        ensures { held self.new ≡ [] }
    {
        self.count = 0;
    }

    // The bytes of the line so far, up to 256.
    pub fn line(&self) -> &[u8]
        ensures bytes { result.now ≡ held self.now }
        ensures short { length result.now ≤ 256 }
    {
        let bytes: &[u8] = &self.bytes;
        &bytes[0..self.count]
    }
}

// What a buffer holds of a line is read as the line is.
pub fn front_tells()
    ensures { FrontTells }
{}
