//! What threads do here is only tested: the contracts tell of no order, and of nothing that happens at one time.
ghost use Rattle.std.specs.Prelude.{◌≡◌, ◌≤◌};

use eligibility::Heaped;
use export_store::Flat;
use nbd_commands::{Config, ExportList, ExportSettings};
use nbd_wire::protocol::{READ, WRITE};
use nbd_wire::{Reply, Request, RequestHead};
use nbd_workers::*;
use payload::Payload;
use reply_box::Taken;
use server_core::{Server, SessionId, Ticket};
use server_lock::{Pass, Shared, settle};
use std::alloc::Global;
use std::sync::Wait;
use std::sync::atomic::{AtomicBool, AtomicU64, Ordering};
use std::sync::ledger::{Blank, Ledger};
use std::thread;
use std::thread::Threads;
use tag_clock::{Clock, Moment};

mod due;
mod flooding;
mod holding;
mod overlapping;
mod sleeping;

// How many turns of its own loop a gate makes, or a session, before it gives up.
const TURNS: u32 = 1_000_000;

type Served = Server<Flat<Global>, Heaped<Global>>;

type Tried<L> = Shared<L, Flat<Global>, Heaped<Global>>;

const FIRST: SessionId = SessionId {
    export: 0,
    number: 0,
};

// Exports, and how many requests of them may be in service.
type Exports<'a> = (&'a [ExportSettings<'static>], u64);

fn server_of(alloc: Global, exports: Exports<'_>) -> Option<Served> {
    let mut list = ExportList::new(alloc);
    for settings in exports.0 {
        if list.add(settings).is_err() {
            return None;
        }
    }
    let Ok(config) = Config::new(list, exports.1) else {
        return None;
    };
    Server::new(alloc, &config).ok()
}

// A server that is shared, and its passes.
fn shared_of<L: Ledger>(
    alloc: Global,
    exports: Exports<'_>,
    blank: Blank,
    n: u64,
) -> Option<(Tried<L>, Vec<Pass<L>>)>
    requires some { 1 ≤ n }
    requires name { blank.name ≡ L.name }
    requires parts { blank.parts ≡ L.parts }
    requires passes { n ≡ blank.parts }
{
    let Some(server) = server_of(alloc, exports) else {
        return None;
    };
    Tried::<L>::new(alloc, server, blank, n).ok()
}

// What the threads of a test do.
trait Play {
    // All that a thread does with its pass, beside others.
    fn works<L: Ledger, R: Wait>(&self, rt: &R, shared: &Tried<L>, pass: Pass<L>) -> Pass<L>;

    // Meanwhile a session is used: whether it was told what it should be. It lets the others end.
    fn asks<L: Ledger, R: Wait>(&self, rt: &R, shared: &Tried<L>, pass: &mut Pass<L>) -> bool;
}

// A thread for each of the passes, and meanwhile the session with its own; all passes come back. Where a thread is
// refused, the server stops.
fn all_run<P: Play + Sync, L: Ledger + Send + Sync, R: Threads + Wait + Sync>(
    rt: &R,
    alloc: Global,
    shared: &Tried<L>,
    passes: Vec<Pass<L>>,
    mut own: Pass<L>,
    play: &P,
) -> (Vec<Pass<L>>, bool) {
    thread::scope(thread::scope_env(), rt, |scope| {
        let mut running = Vec::new(alloc);
        let mut back = Vec::new(alloc);
        for pass in passes {
            let job = move || play.works(rt, shared, pass);
            match scope.spawn(job) {
                Ok(handle) => {
                    if let Err(refused) = running.push(handle) {
                        shared.stop();
                        let _ = back.push(refused.value.join(rt));
                    }
                }
                Err(refused) => {
                    shared.stop();
                    let job = refused.value;
                    let _ = back.push(job());
                }
            }
        }
        let told = play.asks(rt, shared, &mut own);
        for handle in running {
            let _ = back.push(handle.join(rt));
        }
        let _ = back.push(own);
        (back, told)
    })
}

// Whether the session was told what it should be, and the steps of the server, where all its passes came back.
type Ran = (bool, Option<u128>);

fn settled<L: Ledger>(shared: Tried<L>, passes: Vec<Pass<L>>) -> Option<u128> {
    let booked = shared.end();
    if passes.len() as u64 != booked.passes() {
        return None;
    }
    Some(settle(booked, passes))
}

fn run<P: Play + Sync, L: Ledger + Send + Sync, R: Threads + Wait + Sync>(
    rt: &R,
    alloc: Global,
    shared: Tried<L>,
    mut passes: Vec<Pass<L>>,
    play: &P,
) -> Option<Ran> {
    let Some(own) = passes.pop() else {
        return None;
    };
    let (passes, told) = all_run(rt, alloc, &shared, passes, own, play);
    Some((told, settled(shared, passes)))
}

// A server that is used by so many threads at one time.
fn used<P: Play + Sync, L: Ledger + Send + Sync, R: Threads + Wait + Sync>(
    rt: &R,
    alloc: Global,
    exports: Exports<'_>,
    blank: Blank,
    n: u64,
    play: &P,
) -> Option<Ran>
    requires some { 1 ≤ n }
    requires name { blank.name ≡ L.name }
    requires parts { blank.parts ≡ L.parts }
    requires passes { n ≡ blank.parts }
{
    match shared_of::<L>(alloc, exports, blank, n) {
        Some((shared, passes)) => run(rt, alloc, shared, passes, play),
        None => None,
    }
}

fn read_of(cookie: u64, length: u32) -> Request<Global> {
    let head = RequestHead {
        flags: 0,
        kind: READ,
        cookie,
        offset: 0,
        length,
    };
    Request::new(head, Payload::new())
}

// Whether the first export's next session is this one.
fn attaches<L: Ledger, R: Wait>(
    rt: &R,
    shared: &Tried<L>,
    pass: &mut Pass<L>,
    session: SessionId,
) -> bool {
    shared.turn_attach(rt, pass, 0) == Ok(session)
}

// Whether a request arrives at the first moment.
fn arrives<L: Ledger, R: Wait>(
    rt: &R,
    shared: &Tried<L>,
    pass: &mut Pass<L>,
    session: SessionId,
    request: Request<Global>,
) -> bool {
    shared
        .turn_arrive(rt, pass, session, Moment::zero(), request)
        .is_ok()
}

// Whether the session leaves, and is gone.
fn ends<L: Ledger, R: Wait>(
    rt: &R,
    shared: &Tried<L>,
    pass: &mut Pass<L>,
    session: SessionId,
) -> bool {
    shared.turn_leave(rt, pass, session).is_ok() && shared.turn_gone(rt, pass, session).is_ok()
}

// Whether a number is this great within so many turns, each of which yields to other threads.
fn reaches(number: &AtomicU64, least: u64) -> bool {
    for _ in 0..TURNS {
        if number.load(Ordering::SeqCst) >= least {
            return true;
        }
        thread::yield_now();
    }
    false
}

// The session's next reply, once there is one.
fn next_reply<L: Ledger, R: Wait>(
    rt: &R,
    shared: &Tried<L>,
    pass: &mut Pass<L>,
    session: SessionId,
) -> Option<Reply<Global>> {
    for _ in 0..TURNS {
        match shared.turn_take(rt, pass, session) {
            Ok(Taken::Reply(reply)) => return Some(reply),
            Ok(Taken::Empty) => thread::yield_now(),
            _ => return None,
        }
    }
    None
}
