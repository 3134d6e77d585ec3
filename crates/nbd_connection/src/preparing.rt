//! Replies with long data that a reader makes ready while its writer is busy.

use nbd_link::SessionLink;
use nbd_policy::{READY_BYTES, READY_REPLIES};
use nbd_service::{Service, Wakeups};
use nbd_wire::Reply;
use server_lock::Pass;
use session_turns::{ReadyReply, take_reply};
use std::alloc::Global;
use std::sync::Wait;
use std::sync::ledger::Ledger;
use std::time;
use tag_clock::Clock;

/// Takes replies of the session while its writer is busy with another, and makes them ready: one, and further ones where they are
/// short. Where none is there it performs a request first, whoever asked for it.
pub fn make_ready<L: Ledger, R: Wait + time::Clock>(
    rt: &R,
    service: &Service<L>,
    link: &SessionLink<'_>,
    wakeups: &mut Wakeups,
    pass: &mut Pass<L>,
) {
    for count in 0..READY_REPLIES {
        let Some(text) = link.ready.blank(rt, service.alloc, count == 0) else {
            return;
        };
        if !make_one_ready(rt, service, link, wakeups, pass, text) {
            return;
        }
    }
}

/// One of them. False where there was none, or no place for it.
fn make_one_ready<L: Ledger, R: Wait + time::Clock>(
    rt: &R,
    service: &Service<L>,
    link: &SessionLink<'_>,
    wakeups: &mut Wakeups,
    pass: &mut Pass<L>,
    text: Vec<u8, Global>,
) -> bool {
    let Some(reply) = take_or_serve(rt, service, link, wakeups, pass) else {
        link.ready.give_back(rt, ReadyReply::Text(text));
        return false;
    };
    let put = link.ready.put(rt, ReadyReply::of(reply, text, READY_BYTES));
    // Behind that: where nothing is under way and none is ready, nothing counts any more.
    link.note_taken(1);
    if !put {
        service.give_up(rt, link.session, pass);
    }
    link.replies.ring();
    put
}

/// One hold: it takes the reply that is there, or that of a request which it performs.
fn take_or_serve<L: Ledger, R: Wait + time::Clock>(
    rt: &R,
    service: &Service<L>,
    link: &SessionLink<'_>,
    wakeups: &mut Wakeups,
    pass: &mut Pass<L>,
) -> Option<Reply<Global>> {
    let clock = service.clock(rt);
    let mut disks = service.hold(rt, link.is_bulk());
    let began = clock.now();
    let mut taken = take_reply(&mut *disks, pass, link.session);
    if taken.is_err() {
        wakeups.serve_one(&mut *disks, &service.bells, pass, link.session, &clock);
        taken = take_reply(&mut *disks, pass, link.session);
    }
    service.let_go(rt, disks, began);
    wakeups.wake(&service.bells);
    taken.ok()
}
