//! The turns of a session's two threads, each with a hold of the server of its own: one reads requests and hands them in,
//! the other takes replies and writes them.
ghost use Rattle.std.specs.Prelude.{◌≡◌};
ghost use Rattle.session_turns.specs.SessionTurns.{number_of, IsOffered, IsReadTurn, Drops};
ghost use Rattle.session_turns.specs.Writing.{IsWriteTurn};

use crate::held_turns::{hand_in, offer_held};
use crate::reply_writer::ReplyWriter;
use crate::taking::Stop;
use eligibility::Eligibility;
use export_store::Image;
use lone_export::Arrived;
use nbd_stream::{Buffered, FrameReader};
use nbd_wire::{Request, RequestHead};
use server_core::SessionId;
use server_lock::{Pass, Shared};
use std::alloc::Allocator;
use std::io::Write;
use std::sync::Wait;
use std::sync::ledger::Ledger;
use tag_clock::Clock;

/// What a turn that hands a request in came to.
#[derive(Drop)]
pub enum Turn<A: Allocator> {
    /// The request was handed in.
    Going(Arrival),
    /// As many requests of the session as its window are under way, or replies not yet taken. The request is handed back,
    /// to be offered again once a reply was taken.
    Held(Request<A>),
    /// The session is over for this side.
    Ended,
}

/// A request that was handed in, and what it was answered.
#[derive(Clone, Copy, Debug, PartialEq, Eq, Drop)]
pub struct Arrival {
    pub head: RequestHead,
    pub answer: Arrived,
}

impl Arrival {
    /// The number that the request waits with. None where it was answered with an error.
    pub fn number(&self) -> Option<u64>
        ensures { result ≡ number_of self.now.answer }
    {
        match self.answer {
            Arrived::Accepted {
                number,
                limit_tag: _,
            } => Some(number),
            Arrived::Answered(_) => None,
        }
    }
}

/// What a turn that writes a reply came to.
#[derive(Clone, Copy, Debug, PartialEq, Eq, Drop)]
pub enum WriteTurn {
    /// A reply was written.
    Written,
    /// No reply is there yet.
    Idle,
    /// The session is over for this side.
    Ended,
}

/// Reads the client's next request, and offers it. Where the client sent DISC, its input ended or was refused, or memory
/// was, the session leaves. It holds the server only once the request was read.
pub fn read_turn<
    L: Ledger,
    I: Image,
    E: Eligibility<Alloc = I::Alloc>,
    R: Buffered,
    C: Clock,
    W: Wait,
>(
    rt: &W,
    shared: &Shared<L, I, E>,
    pass: &mut Pass<L>,
    session: SessionId,
    reader: &mut FrameReader<R, I::Alloc>,
    clock: &C,
) -> Turn<I::Alloc>
    ensures { IsReadTurn reader.old reader.new pass.old session result pass.new }
{
    let frame = reader.next();
    hand_in(&mut *shared.hold(rt), pass, session, frame, clock)
}

/// Hands a request in at the clock's moment. Where the export is worn, or no memory is there for it, the session leaves.
pub fn offer<L: Ledger, I: Image, E: Eligibility<Alloc = I::Alloc>, C: Clock, W: Wait>(
    rt: &W,
    shared: &Shared<L, I, E>,
    pass: &mut Pass<L>,
    session: SessionId,
    request: Request<I::Alloc>,
    clock: &C,
) -> Turn<I::Alloc>
    ensures { IsOffered pass.old session request result pass.new }
{
    offer_held(&mut *shared.hold(rt), pass, session, request, clock)
}

/// Takes the session's oldest reply, where there is room for it, and writes the replies that were taken. Where the session has left
/// and got all of them, or a write failed, the session is dropped.
pub fn write_turn<L: Ledger, I: Image, E: Eligibility<Alloc = I::Alloc>, O: Write + Drop, W: Wait>(
    rt: &W,
    shared: &Shared<L, I, E>,
    pass: &mut Pass<L>,
    session: SessionId,
    replies: &mut ReplyWriter<O, I::Alloc>,
) -> WriteTurn
    ensures { IsWriteTurn pass.old session replies.old replies.new result pass.new }
{
    let stop = replies.take_one(&mut *shared.hold(rt), pass, session);
    if replies.write().is_err() {
        return drop_session(rt, shared, pass, session);
    }
    match stop {
        Stop::Full => WriteTurn::Written,
        Stop::Empty => WriteTurn::Idle,
        Stop::End => drop_session(rt, shared, pass, session),
        Stop::Refused(_) => WriteTurn::Ended,
    }
}

/// The session is dropped.
fn drop_session<L: Ledger, I: Image, E: Eligibility<Alloc = I::Alloc>, W: Wait>(
    rt: &W,
    shared: &Shared<L, I, E>,
    pass: &mut Pass<L>,
    session: SessionId,
) -> WriteTurn
    ensures ended { result ≡ WriteTurn.Ended }
    ensures drops { Drops pass.old session pass.new }
{
    let _ = shared.turn_gone(rt, pass, session);
    WriteTurn::Ended
}
