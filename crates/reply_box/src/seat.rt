//! A session that is not gone, as it is kept.
ghost use Rattle.std.specs.Prelude.{◌≡◌, ◌<◌, ◌^◌, [], ◌∷◌, ◌++◌};
ghost use Rattle.circular_buffer.specs.Buffer.{buffer, keep_last};
ghost use Rattle.reply_box.specs.Seats.{quiet, state_of, seat_worth};

use circular_buffer::HeapCircularBuffer;
use nbd_wire::Reply;
use std::alloc::Allocator;

/// How a session stands that was attached.
#[derive(Clone, Copy, Debug, PartialEq, Eq)]
pub enum SessionState {
    /// It may send requests.
    Open,
    /// It sends no more, and its replies can be taken.
    Left,
    /// It is no more, and its replies are dropped.
    Gone,
}

/// What `take` answers for a session that is not gone.
#[derive(Drop)]
pub enum Taken<A: Allocator> {
    /// Its oldest reply.
    Reply(Reply<A>),
    /// None waits, and one may come: the session is open, or it is owed some.
    Empty,
    /// The session has left, and all that it was owed is taken.
    End,
}

/// A session that is not gone.
#[derive(Drop)]
pub(crate) struct Seat<A: Allocator> {
    pub(crate) left: bool,
    // How many of its requests are admitted and not yet answered.
    pub(crate) owed: usize,
    pub(crate) outbox: HeapCircularBuffer<Reply<A>, A>,
}

impl<A: Allocator> Seat<A> {
    pub(crate) fn state(&self) -> SessionState
        ensures { result ≡ state_of self.now }
    {
        if self.left {
            SessionState::Left
        } else {
            SessionState::Open
        }
    }

    // How many steps can still come of it: its replies are taken, it leaves, and it is gone.
    pub(crate) fn steps_to_come(&self) -> u64
        requires { seat_worth self.now < 2 ^ 64 }
        ensures { result ≡ seat_worth self.now }
    {
        let ends = if self.left { 1 } else { 2 };
        self.outbox.len() as u64 + ends
    }

    // What `take` answers where the outbox is empty.
    pub(crate) fn quiet(&self) -> Taken<A>
        ensures { result ≡ quiet self.now }
    {
        if self.left && self.owed == 0 {
            Taken::End
        } else {
            Taken::Empty
        }
    }
}

/// Puts a reply behind the others of an outbox that has room. The first takes the place of the one that was taken last: an outbox whose
/// replies come and go one at a time stays in one place of its memory, and so in the processor's cache.
pub(crate) fn put_behind<A: Allocator>(
    outbox: &mut HeapCircularBuffer<Reply<A>, A>,
    reply: Reply<A>,
)
    ensures { outbox.new ≡ buffer (keep_last outbox.old.capacity (outbox.old.items ++ reply ∷ []))
        outbox.old.capacity }
{
    if outbox.is_empty() {
        outbox.push_front(reply);
    } else {
        outbox.push_back(reply);
    }
}
