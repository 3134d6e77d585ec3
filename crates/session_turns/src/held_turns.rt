//! The turns of a session on a server that its caller holds: as many as it likes under one hold. None of them reads from the
//! client or writes to it.
ghost use Rattle.std.specs.Prelude.{◌≡◌, ◌<◌, IfSome, IfNone};
ghost use Rattle.session_turns.specs.SessionTurns.{IsOffered, IsHandedIn, IsReadTurn, Leaves};
ghost use Rattle.session_turns.specs.Offering.{MakesLeave, Offers, HandsIn, HandsInNext};

use crate::turns::{Arrival, Turn};
use eligibility::Eligibility;
use export_store::Image;
use nbd_stream::{Buffered, Frame, FrameReader, is_disc};
use nbd_wire::Request;
use server_core::{ArriveRefusal, SessionId};
use server_lock::{Booked, Pass, turn_arrive, turn_leave};
use std::sync::ledger::Ledger;
use tag_clock::Clock;

/// What was read is handed in: a request is offered; at DISC, and at what isn't a request, the session leaves.
pub fn hand_in<L: Ledger, I: Image, E: Eligibility<Alloc = I::Alloc>, C: Clock>(
    booked: &mut Booked<L, I, E>,
    pass: &mut Pass<L>,
    session: SessionId,
    frame: Frame<I::Alloc>,
    clock: &C,
) -> Turn<I::Alloc>
    ensures turn { IsHandedIn pass.old session frame result pass.new }
    ensures server { HandsIn I.Alloc booked.old pass.old session frame result booked.new pass.new }
{
    match frame {
        Frame::Whole(request) => {
            if is_disc(request.head()) {
                return leave(booked, pass, session);
            }
            offer_held(booked, pass, session, request, clock)
        }
        Frame::Ended(_) => leave(booked, pass, session),
    }
}

/// Hands a request in at the clock's moment. Where the export is worn, or no memory is there for it, the session leaves.
pub fn offer_held<L: Ledger, I: Image, E: Eligibility<Alloc = I::Alloc>, C: Clock>(
    booked: &mut Booked<L, I, E>,
    pass: &mut Pass<L>,
    session: SessionId,
    request: Request<I::Alloc>,
    clock: &C,
) -> Turn<I::Alloc>
    ensures turn { IsOffered pass.old session request result pass.new }
    ensures server { Offers I.Alloc booked.old pass.old session request result booked.new pass.new }
{
    let head = request.head();
    match turn_arrive(booked, pass, session, clock.now(), request) {
        Ok(answer) => Turn::Going(Arrival { head, answer }),
        Err(refused) => match refused.refusal {
            ArriveRefusal::Hold => Turn::Held(refused.request),
            ArriveRefusal::Worn => leave(booked, pass, session),
            ArriveRefusal::NoMemory => leave(booked, pass, session),
            ArriveRefusal::NoExport | ArriveRefusal::NotOpen => Turn::Ended,
        },
    }
}

/// Hands in the next request that was read already. Where none was it changes nothing.
pub fn read_ready<L: Ledger, I: Image, E: Eligibility<Alloc = I::Alloc>, R: Buffered, C: Clock>(
    booked: &mut Booked<L, I, E>,
    pass: &mut Pass<L>,
    session: SessionId,
    reader: &mut FrameReader<R, I::Alloc>,
    clock: &C,
) -> Option<Turn<I::Alloc>>
    ensures ready { IfSome result (λ turn. 0 < reader.old.reading.ready) }
    ensures turn { IfSome result (λ turn.
        IsReadTurn reader.old reader.new pass.old session turn pass.new) }
    ensures server { IfSome result (λ turn. HandsInNext I.Alloc reader.old reader.new booked.old
        pass.old session turn booked.new pass.new) }
    ensures unread { reader.new.left ≡ reader.old.left }
    ensures none { IfNone result ((reader.old.reading.ready ≡ 0) × (reader.new ≡ reader.old)
        × (pass.new ≡ pass.old) × (booked.new ≡ booked.old)) }
{
    if !reader.is_ready() {
        return None;
    }
    let frame = reader.next();
    Some(hand_in(booked, pass, session, frame, clock))
}

/// The session leaves.
fn leave<L: Ledger, I: Image, E: Eligibility<Alloc = I::Alloc>>(
    booked: &mut Booked<L, I, E>,
    pass: &mut Pass<L>,
    session: SessionId,
) -> Turn<I::Alloc>
    ensures ended { result ≡ Turn.Ended }
    ensures leaves { Leaves pass.old session pass.new }
    ensures server { MakesLeave I.Alloc booked.old pass.old session booked.new pass.new }
{
    let _ = turn_leave(booked, pass, session);
    Turn::Ended
}
