//! Replies that a session takes from a server that its caller holds.
ghost use Rattle.std.specs.Prelude.{◌≡◌, ◌+◌, length, min};
ghost use Rattle.std.specs.Vec.{vec_capacity};
ghost use Rattle.session_turns.specs.Taking.{Takes, TakesReply, TakesOne};

use eligibility::Eligibility;
use export_store::Image;
use nbd_wire::Reply;
use reply_box::Taken;
use server_core::{SessionId, SessionRefusal};
use server_lock::{Booked, Pass, turn_take};
use std::alloc::Allocator;
use std::sync::ledger::Ledger;

/// Why no more replies were taken.
#[derive(Clone, Copy, Debug, PartialEq, Eq, Drop)]
pub enum Stop {
    /// There is room for no more.
    Full,
    /// No more is there yet.
    Empty,
    /// The session has left, and got all its replies. It is to be dropped once they are written.
    End,
    /// The session isn't there.
    Refused(SessionRefusal),
}

/// Takes the session's oldest reply, or tells why there is none.
pub fn take_reply<L: Ledger, I: Image, E: Eligibility<Alloc = I::Alloc>>(
    booked: &mut Booked<L, I, E>,
    pass: &mut Pass<L>,
    session: SessionId,
) -> Result<Reply<I::Alloc>, Stop>
    ensures { TakesReply I.Alloc booked.old pass.old session result booked.new pass.new }
{
    match turn_take(booked, pass, session) {
        Ok(Taken::Reply(reply)) => Ok(reply),
        Ok(Taken::Empty) => Err(Stop::Empty),
        Ok(Taken::End) => Err(Stop::End),
        Err(refusal) => Err(Stop::Refused(refusal)),
    }
}

/// Takes the session's oldest reply, where the list has room for one more; it never grows. `Full` where one was taken, too.
pub fn take_one<L: Ledger, I: Image, E: Eligibility<Alloc = I::Alloc>, A: Allocator>(
    booked: &mut Booked<L, I, E>,
    pass: &mut Pass<L>,
    session: SessionId,
    replies: &mut Vec<Reply<I::Alloc>, A>,
) -> Stop
    ensures server { Takes I.Alloc booked.old pass.old session replies.old.items (min (vec_capacity
        replies.old) (length replies.old.items + 1)) result replies.new.items booked.new pass.new }
    ensures turn { TakesOne pass.old session replies.old.items (vec_capacity replies.old) result
        replies.new.items pass.new }
    ensures room { vec_capacity replies.new ≡ vec_capacity replies.old }
{
    if replies.len() >= replies.capacity() {
        return Stop::Full;
    }
    match take_reply(booked, pass, session) {
        Ok(reply) => {
            replies.push_reserved(reply);
            Stop::Full
        }
        Err(stop) => stop,
    }
}

/// Takes the session's oldest replies, until the list has no room for more, which never grows, or a take gives none.
pub fn take_replies<L: Ledger, I: Image, E: Eligibility<Alloc = I::Alloc>, A: Allocator>(
    booked: &mut Booked<L, I, E>,
    pass: &mut Pass<L>,
    session: SessionId,
    replies: &mut Vec<Reply<I::Alloc>, A>,
) -> Stop
    ensures takes { Takes I.Alloc booked.old pass.old session replies.old.items
        (vec_capacity replies.old) result replies.new.items booked.new pass.new }
    ensures room { vec_capacity replies.new ≡ vec_capacity replies.old }
{
    while replies.len() < replies.capacity() {
        match take_reply(booked, pass, session) {
            Ok(reply) => replies.push_reserved(reply),
            Err(stop) => return stop,
        }
    }
    Stop::Full
}
