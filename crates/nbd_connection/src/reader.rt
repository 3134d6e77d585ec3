//! The thread of a connection that reads requests.

use crate::batch::{BatchOutcome, Offer, RequestSource};
use crate::hold_clock::HoldClock;
use crate::preparing::make_ready;
use nbd_link::rules::{wakes_writer, writer_chooses};
use nbd_link::{FlushOutcome, Outlet, SessionLink};
use nbd_policy::{
    PATIENCE_S, RequestSize, WRITER_WAIT_MS, WRITER_WAITS, answers_read, batch_after, handed_in,
    held_back_patience, load_of, makes_ready, may_read_ahead, size_of, span_of,
};
use nbd_service::Service;
use nbd_wire::Request;
use nbd_workers::until;
use server_lock::Pass;
use session_turns::{Stop, Turn};
use std::alloc::Global;
use std::sync::ledger::Ledger;
use std::sync::{MutexGuard, Wait};
use std::thread::Scope;
use std::time;
use std::time::Duration;
use tag_clock::{Clock, Moment};

/// Reads requests until the client sends no more. One hold hands in a request and those that are ready behind it; behind each it
/// performs what the scheduler chooses, two at most, until that one is done, but for long READs that it leaves to the writer. The
/// reader writes the replies of what it performed itself, and leaves others to the writer.
pub fn read_requests<'s, E, L: Ledger, R: Wait + Sync + time::Clock>(
    rt: &'s R,
    scope: &Scope<'s, E>,
    service: &Service<L>,
    link: &'s SessionLink<'_>,
    mut source: RequestSource<'_, '_, R>,
    pass: &mut Pass<L>,
) {
    let mut held: Option<Request<Global>> = None;
    let mut read_in = None;
    for _ in rt.forever() {
        let heard = link.room.heard();
        let offer = match held.take() {
            Some(request) => Offer::Again(request),
            None => Offer::Read(source.frames.next()),
        };
        wait_for_room(rt, service, link, offer.writes());
        source.answers = answers(rt, service, &offer, &mut read_in);
        if source.answers {
            wait_for_writer(rt, link);
        }
        let (turn, ahead) = read_on(rt, service, link, &mut source, pass, offer);
        set_reading_ahead(rt, scope, service.alloc, link, ahead);
        match turn {
            Turn::Going(_) => {}
            Turn::Held(request) => {
                held = Some(request);
                rest(rt, link);
                link.room
                    .wait(rt, heard, Some(Duration::from_secs(PATIENCE_S)));
            }
            Turn::Ended => break,
        }
    }
    source.give_spares(rt, service);
    link.replies.ring();
}

/// Waits while other rates are asked for the session's export, too many bytes of its requests are under way, or too many of its
/// export's WRITEs wait, for which a first WRITE waits as well.
fn wait_for_room<L: Ledger, R: Wait + time::Clock>(
    rt: &R,
    service: &Service<L>,
    link: &SessionLink<'_>,
    writes: bool,
) {
    for _ in rt.forever() {
        if link.gate.is_shut() {
            wait_for_retune(rt, link);
        }
        let heard = link.room.heard();
        if !link.bytes.holds_back(link.under_way(), writes) {
            return;
        }
        service.look_at_left_writes(rt, link.session.export);
        rest(rt, link);
        link.room
            .wait(rt, heard, Some(held_back_patience(link.under_way())));
    }
}

/// Whether the reader answers itself what is offered. Notes a READ of long data, and in which span that was.
fn answers<L: Ledger, R: time::Clock + Wait>(
    rt: &R,
    service: &Service<L>,
    offer: &Offer,
    read_in: &mut Option<u64>,
) -> bool {
    match offer.head() {
        Some(head) if size_of(head) == RequestSize::LongRead => {
            let span = span_of(service.clock(rt).now());
            let readers = service.note_long_read(rt, span, *read_in == Some(span));
            *read_in = Some(span);
            answers_read(head, readers, service.processors)
        }
        _ => false,
    }
}

/// Waits a little while the writer is busy, where the reader answers itself what it is about to hand in. What is left to the writer
/// meanwhile would keep it busy, and so all that the client asks for behind it.
fn wait_for_writer<R: Wait + time::Clock>(rt: &R, link: &SessionLink<'_>) {
    for _ in 0..WRITER_WAITS {
        let heard = link.room.heard();
        if link.bytes.is_unread() || link.outlet.try_lock().is_some() {
            return;
        }
        rest(rt, link);
        link.room
            .wait(rt, heard, Some(Duration::from_millis(WRITER_WAIT_MS)));
    }
}

/// Waits until no other rates are asked for the session's export any more, or the session is over.
fn wait_for_retune<R: Wait + time::Clock>(rt: &R, link: &SessionLink<'_>) {
    for _ in rt.forever() {
        let heard = link.gate.heard();
        if !link.waits_for_retune() {
            return;
        }
        rest(rt, link);
        link.gate.wait(rt, heard);
    }
}

/// Before the reader waits for something else than its client: nobody waits for this session in the order of turns from now on,
/// the writer sends what the reader wrote, and what was left to the thread that reads ahead is let go.
fn rest<R: Wait + time::Clock>(rt: &R, link: &SessionLink<'_>) {
    link.seat.leave(rt, false);
    link.replies.ring();
    link.ahead.discards.let_go();
}

/// Has the client's bytes read ahead from now on, or no longer.
fn set_reading_ahead<'s, E, R: Wait + Sync>(
    rt: &'s R,
    scope: &Scope<'s, E>,
    alloc: Global,
    link: &'s SessionLink<'_>,
    ahead: bool,
) {
    if !ahead {
        link.ahead.stop();
        return;
    }
    if link.ahead.wants_thread() {
        let started = scope.spawn(move || link.ahead.run(rt, alloc, link.peer));
        if started.is_err() {
            link.ahead.has_no_thread();
            return;
        }
    }
    link.ahead.start();
}

/// Makes one hold, and does what follows from it. Answers the hold's last turn, and whether the client's bytes are to be read ahead:
/// this session sends long WRITEs, and no other does.
fn read_on<L: Ledger, R: Wait + time::Clock>(
    rt: &R,
    service: &Service<L>,
    link: &SessionLink<'_>,
    source: &mut RequestSource<'_, '_, R>,
    pass: &mut Pass<L>,
    offer: Offer,
) -> (Turn<Global>, bool) {
    if let Some(head) = offer.head() {
        let behind = source.frames.is_ready() || link.has_more_behind(rt, size_of(head));
        link.seat.wait_for_turn(rt, head, behind, link.under_way());
    }
    let mut outlet = link.outlet.try_lock();
    let before = make_room(rt, link, &mut outlet, source.answers);
    let batch = hold_once(rt, service, link, source, pass, &mut outlet, offer);
    link.seat.owe(batch.cost);
    source.limited = batch.limited.is_some();
    if let Some(until) = batch.limited {
        link.seat.note_limit(rt, until, service.clock(rt).now());
    }
    let busy = outlet.is_none();
    let written = write_taken(rt, service, link, outlet, pass, &batch, before);
    if wakes_writer(batch.reads_long, written) {
        link.replies.ring();
    }
    if busy && batch.reads_long && makes_ready(service.writers.count(), service.processors) {
        make_ready(rt, service, link, &mut source.wakeups, pass);
    }
    let chooses = writer_chooses(
        batch.reads_long,
        link.bytes.is_unread(),
        is_over(&batch.turn),
    );
    service.bells.ring_for(batch.waiting, chooses);
    let ahead = batch.writes_long
        && may_read_ahead(service.processors)
        && service.note_long_write(rt, link.session, service.clock(rt).now());
    link.seat.end_turn(rt);
    (batch.turn, ahead)
}

/// Makes room for the replies to what the reader is about to hand in, where the outlet is at hand. Answers how many were taken and
/// aren't written.
fn make_room<R: Wait + time::Clock>(
    rt: &R,
    link: &SessionLink<'_>,
    outlet: &mut Option<MutexGuard<'_, Outlet<'_>>>,
    answers: bool,
) -> usize {
    match outlet {
        Some(outlet) => {
            link.settle_bytes(rt, &**outlet);
            outlet.make_room(answers);
            outlet.unwritten()
        }
        None => 0,
    }
}

/// Writes the replies that a hold took, where the outlet is at hand, in which so many had been taken before. False where the writer has
/// something to do.
fn write_taken<L: Ledger, R: Wait + time::Clock>(
    rt: &R,
    service: &Service<L>,
    link: &SessionLink<'_>,
    outlet: Option<MutexGuard<'_, Outlet<'_>>>,
    pass: &mut Pass<L>,
    batch: &BatchOutcome,
    before: usize,
) -> bool {
    let Some(mut outlet) = outlet else {
        return false;
    };
    link.note_taken(outlet.unwritten().saturating_sub(before));
    let last = !is_going(&batch.turn) || !link.keeps_replies(rt, &*outlet);
    is_written(rt, service, link, &mut *outlet, pass, last) && batch.stop == Some(Stop::Empty)
}

/// Hands in what is offered, and requests that are ready behind it, under one hold.
fn hold_once<L: Ledger, R: Wait + time::Clock>(
    rt: &R,
    service: &Service<L>,
    link: &SessionLink<'_>,
    source: &mut RequestSource<'_, '_, R>,
    pass: &mut Pass<L>,
    outlet: &mut Option<MutexGuard<'_, Outlet<'_>>>,
    offer: Offer,
) -> BatchOutcome {
    let clock = service.clock(rt);
    let asked = clock.now();
    note_load(service, link, source, &offer, asked);
    let mut disks = service.hold(rt, link.is_bulk());
    let held = HoldClock::at(clock.now());
    let beside = service.interactive.has_few();
    let most = handed_in(
        source.answers,
        batch_after(until(asked, held.now()), beside),
    );
    let batch = source.hand_in_batch(&mut *disks, service, link, pass, outlet, offer, most, &held);
    service.let_go(rt, disks, held.now());
    source.recycle(rt, service, &link.ahead, batch.brought);
    source.room.note(service.alloc, batch.brought);
    link.note_prefetched(batch.prefetched);
    source.wakeups.wake(&service.bells);
    batch
}

/// Notes how much the session asks for at this moment.
fn note_load<L: Ledger, R: Wait + time::Clock>(
    service: &Service<L>,
    link: &SessionLink<'_>,
    source: &mut RequestSource<'_, '_, R>,
    offer: &Offer,
    now: Moment,
) {
    let Some(head) = offer.head() else {
        return;
    };
    let several = link.seat.has_several() || link.under_way() > 0;
    let load = load_of(head, source.frames.is_ready(), several, source.limited);
    link.note_load(load);
    let behind = source.frames.ready().len() as u64;
    let at_hand = behind.saturating_add(link.under_way()).saturating_add(1);
    source.habit = source.habit.with(load, at_hand);
    service.interactive.note(source.habit.expectation(), now);
}

fn is_going(turn: &Turn<Global>) -> bool {
    match turn {
        Turn::Going(_) => true,
        _ => false,
    }
}

fn is_over(turn: &Turn<Global>) -> bool {
    match turn {
        Turn::Ended => true,
        _ => false,
    }
}

/// Writes the replies that were taken, where they are short, and sends them where the reader may sleep next. False where the writer
/// has something to do.
fn is_written<L: Ledger, R: Wait>(
    rt: &R,
    service: &Service<L>,
    link: &SessionLink<'_>,
    outlet: &mut Outlet<'_>,
    pass: &mut Pass<L>,
    last: bool,
) -> bool {
    if !outlet.is_brief() {
        return false;
    }
    match outlet.write_briefly(last) {
        FlushOutcome::All => true,
        FlushOutcome::Part => false,
        FlushOutcome::Failed => {
            service.give_up(rt, link.session, pass);
            false
        }
    }
}
