// What a list of found writes answers.
ghost use Rattle.std.specs.Prelude.{◌≡◌, [], IfOk};

use crate::found::Found;
use crate::span::Span;
use std::alloc::{AllocError, Global};

impl Found {
    // An empty list with room for that many writes; only want of memory refuses it.
    pub fn with_room(heap: Global, room: u32) -> Result<Found, AllocError>
        ensures { IfOk result (λ f. f ≡ record { spans = []; room = room }) }
    {
        let spans = Vec::with_capacity(heap, room as usize)?;
        Ok(Found { spans })
    }

    // The writes, in their order.
    pub fn spans(&self) -> &[Span]
        ensures { result.now ≡ self.now.spans }
    {
        self.spans.as_slice()
    }

    // How many writes there is room for.
    pub fn room(&self) -> u32
        ensures { result ≡ self.now.room }
    {
        self.spans.capacity() as u32
    }
}
