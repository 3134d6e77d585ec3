ghost use Rattle.std.specs.Prelude.{◌≡◌, ◌==◌};

use nbd_wire::protocol::DISC;
use nbd_wire::{Request, RequestHead};
use std::alloc::Allocator;

/// How the reading of a client's requests ended.
#[derive(Clone, Copy, Debug, PartialEq, Eq)]
pub enum Ending {
    /// The input ended between two messages.
    Over,
    /// The input ended within a message.
    Cut,
    /// A head has another magic than it should.
    BadMagic,
    /// A WRITE is longer than allowed.
    TooLong,
    /// A read failed.
    ReadFailed,
    /// Memory was refused.
    NoMemory,
}

/// What stands next in a client's bytes.
#[derive(Drop)]
pub enum Frame<A: Allocator> {
    Whole(Request<A>),
    /// No request: the reading ended so.
    Ended(Ending),
}

/// Whether a request ends the session. Its other fields are ignored.
pub fn is_disc(head: RequestHead) -> bool
    ensures { result ≡ (head.kind == 2) }
{
    head.kind == DISC
}
