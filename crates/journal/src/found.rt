// The list of writes that a scan fills.
use crate::span::Span;
use std::marker::Model;

pub mod list;
pub mod scan;

// Writes in their order, in room that was taken when the list was made.
#[derive(Drop)]
pub struct Found {
    spans: Vec<Span>,
}

// A list of writes means these writes and the room for them.
impl Model for Found {
    ghost use Rattle.std.specs.Prelude.{◌^◌, ◌<◌, vec_capacity};
    ghost use Rattle.journal.specs.Writes.{FoundView};

    ghost Value = { FoundView };

    ghost view = { λ f. record { spans = f.spans.items; room = vec_capacity f.spans } };

    ghost invariant = { λ f. vec_capacity f.spans < 2 ^ 32 };
}
