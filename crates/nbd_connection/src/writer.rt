//! The thread of a connection that writes replies.

use crate::batch::waiting_in;
use crate::write_times::WriteTimes;
use nbd_link::rules::writer_goes_on;
use nbd_link::{Outlet, SessionLink};
use nbd_policy::{Waiting, is_due};
use nbd_service::{Service, Wakeups};
use server_lock::Pass;
use session_turns::{ReadyReply, Stop};
use std::alloc::Global;
use std::net::Shutdown;
use std::sync::Wait;
use std::sync::ledger::Ledger;
use std::time;
use tag_clock::Clock;

/// What a round of a writer came to.
#[derive(Clone, Copy, Debug, PartialEq, Eq)]
enum Round {
    /// There may be more to do.
    Going,
    /// All is written and sent.
    Idle,
    /// The session is over.
    Over,
}

/// What a writer's hold came to.
#[derive(Clone, Copy, Debug, PartialEq, Eq, Drop)]
struct DrainOutcome {
    /// Why no more replies were taken.
    stop: Stop,
    /// What waits to be chosen.
    waiting: Waiting,
    /// Whether it is due by now.
    is_due: bool,
    /// Whether a request was performed.
    performed: bool,
}

/// Writes replies until the session is over, and ends the connection. In between it serves what waits, so that the thread which
/// has just made a long reply writes it.
pub fn write_replies<L: Ledger, R: Wait + time::Clock>(
    rt: &R,
    service: &Service<L>,
    link: &SessionLink<'_>,
) {
    if let Some(mut pass) = service.passes.borrow(rt) {
        if let Ok(mut wakeups) = Wakeups::new(service.alloc) {
            write_all(rt, service, link, &mut pass, &mut wakeups);
        }
        service.passes.give_back(rt, pass);
    }
    link.bytes.end();
    link.room.ring();
    // Wakes a reader that waits for the client.
    let _ = link.peer.shutdown(Shutdown::Both);
}

fn write_all<L: Ledger, R: Wait + time::Clock>(
    rt: &R,
    service: &Service<L>,
    link: &SessionLink<'_>,
    pass: &mut Pass<L>,
    wakeups: &mut Wakeups,
) {
    let mut times = WriteTimes::new();
    service.writers.begin();
    for _ in rt.forever() {
        let heard = link.replies.heard();
        match write_on(rt, service, link, pass, wakeups, &mut times) {
            Round::Going => {}
            Round::Idle => {
                service.writers.end();
                link.replies.wait(rt, heard, link.patience());
                service.writers.begin();
            }
            Round::Over => break,
        }
    }
    service.writers.end();
}

/// Takes the replies that are there, under one hold, and writes them.
fn write_on<L: Ledger, R: Wait + time::Clock>(
    rt: &R,
    service: &Service<L>,
    link: &SessionLink<'_>,
    pass: &mut Pass<L>,
    wakeups: &mut Wakeups,
    times: &mut WriteTimes,
) -> Round {
    let mut guard = link.outlet.lock(rt);
    let outlet = &mut *guard;
    outlet.make_room(false);
    if let Some(ready) = link.ready.take(rt) {
        return send_ready(rt, service, link, outlet, pass, ready, times);
    }
    let drained = take_on(rt, service, link, outlet, pass, wakeups);
    let wrote = outlet.unwritten() > 0;
    if !write_taken(rt, service, link, outlet, times) {
        service.give_up(rt, link.session, pass);
        return Round::Over;
    }
    if wrote {
        link.room.ring();
    }
    end_round(rt, service, link, outlet, pass, times, drained, wrote)
}

/// What a round came to, in which something was written or nothing. Where no reply is left, it sends what was written.
fn end_round<L: Ledger, R: Wait + time::Clock>(
    rt: &R,
    service: &Service<L>,
    link: &SessionLink<'_>,
    outlet: &mut Outlet<'_>,
    pass: &mut Pass<L>,
    times: &mut WriteTimes,
    drained: DrainOutcome,
    wrote: bool,
) -> Round {
    let goes_on = writer_goes_on(drained.is_due, wrote, drained.performed);
    match drained.stop {
        Stop::Full => Round::Going,
        Stop::Empty => {
            if wrote && goes_on {
                return Round::Going;
            }
            send(
                rt,
                service,
                link,
                outlet,
                pass,
                times,
                goes_on,
                drained.waiting,
            )
        }
        Stop::End if !link.ready.is_empty(rt) => Round::Going,
        Stop::End | Stop::Refused(_) => {
            let _ = outlet.send();
            service.give_up(rt, link.session, pass);
            Round::Over
        }
    }
}

/// Writes the replies that were taken, and notes how long that took. Where it failed the connection is over.
fn write_taken<L: Ledger, R: Wait + time::Clock>(
    rt: &R,
    service: &Service<L>,
    link: &SessionLink<'_>,
    outlet: &mut Outlet<'_>,
    times: &mut WriteTimes,
) -> bool {
    let clock = service.clock(rt);
    let bytes = outlet.taken_bytes();
    times.begin(clock.now());
    let written = outlet.write();
    link.seat.note_pace(times.end(clock.now(), bytes));
    written
}

/// Takes the replies that are there. Where none is there it performs a request first, whoever asked for it.
fn take_on<L: Ledger, R: Wait + time::Clock>(
    rt: &R,
    service: &Service<L>,
    link: &SessionLink<'_>,
    outlet: &mut Outlet<'_>,
    pass: &mut Pass<L>,
    wakeups: &mut Wakeups,
) -> DrainOutcome {
    let clock = service.clock(rt);
    let before = outlet.unwritten();
    let mut disks = service.hold(rt, link.is_bulk());
    let began = clock.now();
    let mut stop = outlet.take(&mut *disks, pass, link.session);
    if stop == Stop::Empty && outlet.unwritten() == 0 {
        wakeups.serve_one(&mut *disks, &service.bells, pass, link.session, &clock);
        stop = outlet.take(&mut *disks, pass, link.session);
    }
    let waiting = waiting_in(&*disks);
    service.let_go(rt, disks, began);
    link.note_taken(outlet.unwritten().saturating_sub(before));
    let performed = wakeups.wake(&service.bells);
    let is_due = is_due(waiting, clock.now());
    DrainOutcome {
        stop,
        waiting,
        is_due,
        performed,
    }
}

/// Sends what the reader made ready.
fn send_ready<L: Ledger, R: Wait + time::Clock>(
    rt: &R,
    service: &Service<L>,
    link: &SessionLink<'_>,
    outlet: &mut Outlet<'_>,
    pass: &mut Pass<L>,
    ready: ReadyReply<Global>,
    times: &mut WriteTimes,
) -> Round {
    let clock = service.clock(rt);
    times.begin(clock.now());
    let sent = outlet.send_ready(&ready);
    link.seat
        .note_pace(times.end(clock.now(), ready.data() as u64));
    if !sent {
        service.give_up(rt, link.session, pass);
        return Round::Over;
    }
    link.ready.give_back(rt, ready);
    link.room.ring();
    Round::Going
}

/// Sends what was written. Where the writer has nothing more to do, it leaves what waits to the workers.
fn send<L: Ledger, R: Wait + time::Clock>(
    rt: &R,
    service: &Service<L>,
    link: &SessionLink<'_>,
    outlet: &mut Outlet<'_>,
    pass: &mut Pass<L>,
    times: &mut WriteTimes,
    goes_on: bool,
    waiting: Waiting,
) -> Round {
    let clock = service.clock(rt);
    times.begin(clock.now());
    let sent = outlet.send();
    link.seat.note_pace(times.end(clock.now(), 0));
    if !sent {
        service.give_up(rt, link.session, pass);
        return Round::Over;
    }
    if goes_on {
        return Round::Going;
    }
    service.bells.ring_for(waiting, false);
    if link.patience().is_none() {
        times.rest();
        link.seat.note_idle(rt);
        link.settle_bytes(rt, outlet);
        link.ready.rest(rt);
        outlet.rest();
    }
    Round::Idle
}
