ghost use Rattle.std.specs.Prelude.{◌≡◌, ◌≤◌};

mod lines;
mod scripts;
mod tally;
mod wrappers;

use eligibility::{Eligibility, Heaped, Listed};
use export_cell::Outdated;
use export_store::Paged;
use lone_export::Arrived;
use nbd_commands::{Config, ExportList, ExportSettings};
use nbd_wire::protocol::{FLUSH, READ, WRITE};
use nbd_wire::{Request, RequestHead};
use payload::Payload;
use refusing::Refusing;
use reply_box::Taken;
use server_core::{Chosen, NotAttached, Server, SessionId, SessionRefusal};
use server_lock::*;
use server_table::{Answer, Event};
use std::alloc::{Allocator, Global};
use std::marker::Brand;
use std::sync::Wait;
use std::sync::ledger::{Blank, Ledger};
use tag_clock::{Moment, Tags};

type Live<E> = Server<Paged<Global>, E>;

type Tried<L> = Shared<L, Paged<Global>, Heaped<Global>>;

// Each export by its reservation, limit, weight, depth and window; and how many requests may be in service.
type Exports<'a> = (&'a [[u64; 5]], u64);

const FIRST: SessionId = SessionId {
    export: 0,
    number: 0,
};

const SECOND: SessionId = SessionId {
    export: 0,
    number: 1,
};

// What is served where nothing else is said.
const PLAIN: Exports<'static> = (&[[0, 0, 1, 1024, 256]], 32);

// Of an export of 4,096 bytes.
fn settings(name: &'static [u8], rates: &[u64; 5]) -> ExportSettings<'static> {
    let mut settings = ExportSettings::new(name, 4096);
    settings.reservation = rates[0];
    settings.limit = rates[1];
    settings.weight = rates[2];
    settings.depth = rates[3];
    settings.window = rates[4];
    settings
}

fn config_of<A: Allocator + Copy>(alloc: A, exports: Exports<'_>) -> Option<Config<A>> {
    let mut list = ExportList::new(alloc);
    for (name, rates) in [b"a", b"b"].iter().zip(exports.0) {
        if list.add(&settings(name.as_slice(), rates)).is_err() {
            return None;
        }
    }
    Config::new(list, exports.1).ok()
}

fn server_of<E: Eligibility<Alloc = A>, A: Allocator + Copy>(
    alloc: A,
    exports: Exports<'_>,
) -> Option<Server<Paged<A>, E>> {
    match config_of(alloc, exports) {
        Some(config) => Server::new(alloc, &config).ok(),
        None => None,
    }
}

// A read of four bytes.
fn read_of<A: Allocator>(cookie: u64) -> Request<A> {
    let head = RequestHead {
        flags: 0,
        kind: READ,
        cookie,
        offset: 0,
        length: 4,
    };
    Request::new(head, Payload::new())
}

fn flush_of<A: Allocator>(cookie: u64) -> Request<A> {
    let head = RequestHead {
        flags: 0,
        kind: FLUSH,
        cookie,
        offset: 0,
        length: 0,
    };
    Request::new(head, Payload::new())
}

fn write_of(alloc: Global, cookie: u64) -> Option<Request<Global>> {
    let Ok(payload) = Payload::copied(alloc, 0, [0xde, 0xad, 0xbe, 0xef].as_slice()) else {
        return None;
    };
    let head = RequestHead {
        flags: 0,
        kind: WRITE,
        cookie,
        offset: 0,
        length: 4,
    };
    Some(Request::new(head, payload))
}

// A server that is shared, and its only pass.
fn shared_of<L: Ledger>(
    alloc: Global,
    exports: Exports<'_>,
    blank: Blank,
) -> Option<(Tried<L>, Vec<Pass<L>>)>
    requires name { blank.name ≡ L.name }
    requires parts { blank.parts ≡ L.parts }
    requires one { blank.parts ≡ 1 }
{
    match server_of(alloc, exports) {
        Some(server) => Tried::<L>::new(alloc, server, blank, 1).ok(),
        None => None,
    }
}

// The steps of a server, where these are all its passes.
fn settled<L: Ledger, E: Eligibility<Alloc = A>, A: Allocator + Copy>(
    booked: Booked<L, Paged<A>, E>,
    passes: Vec<Pass<L>, A>,
) -> Option<u128> {
    if passes.len() as u64 != booked.passes() {
        return None;
    }
    Some(settle(booked, passes))
}

// What is done with a server that is shared, by its only pass.
#[derive(Clone, Copy)]
enum Play<'a> {
    Sessions,
    Due,
    // The turns of a script.
    Script(&'a str),
}

fn goes<L: Ledger, R: Wait>(
    rt: &R,
    alloc: Global,
    shared: &Tried<L>,
    pass: &mut Pass<L>,
    play: Play<'_>,
) -> bool {
    match play {
        Play::Sessions => two_sessions(rt, alloc, shared, pass),
        Play::Due => tells_due(rt, shared, pass),
        Play::Script(turns) => wrappers::answers_each(rt, alloc, shared, pass, turns),
    }
}

fn steps_of<L: Ledger, R: Wait>(rt: &R, shared: &Tried<L>) -> u128 {
    shared.hold(rt).server().steps()
}

// The server's steps behind a play that goes as it should.
fn steps_behind<L: Ledger, R: Wait>(
    rt: &R,
    alloc: Global,
    shared: &Tried<L>,
    passes: &mut Vec<Pass<L>>,
    play: Play<'_>,
) -> Option<u128> {
    let Some(pass) = passes.get_mut(0) else {
        return None;
    };
    if goes(rt, alloc, shared, pass, play) {
        Some(steps_of(rt, shared))
    } else {
        None
    }
}

// Whether a play goes as it should, and the steps that are settled are those that the server counted.
fn plays<L: Ledger, R: Wait>(
    rt: &R,
    alloc: Global,
    exports: Exports<'_>,
    blank: Blank,
    play: Play<'_>,
) -> bool
    requires name { blank.name ≡ L.name }
    requires parts { blank.parts ≡ L.parts }
    requires one { blank.parts ≡ 1 }
{
    let Some((shared, mut passes)) = shared_of::<L>(alloc, exports, blank) else {
        return false;
    };
    let steps = steps_behind(rt, alloc, &shared, &mut passes, play);
    let ended = settled(shared.end(), passes);
    steps.is_some() && ended == steps
}

// Whether the first session's WRITE arrives.
fn is_sent<L: Ledger, R: Wait>(
    rt: &R,
    alloc: Global,
    shared: &Tried<L>,
    pass: &mut Pass<L>,
) -> bool {
    let Some(request) = write_of(alloc, 1) else {
        return false;
    };
    let arrived = shared.turn_arrive(rt, pass, FIRST, Moment::zero(), request);
    arrived.ok() == accepted(0)
}

fn accepted(number: u64) -> Option<Arrived> {
    Some(Arrived::Accepted {
        number,
        limit_tag: 0,
    })
}

// The request that is chosen now, where it has this number.
fn chosen<L: Ledger, R: Wait>(
    rt: &R,
    shared: &Tried<L>,
    pass: &mut Pass<L>,
    number: u64,
) -> Option<Chosen> {
    match shared.turn_dispatch(rt, pass, Moment::zero()) {
        Some(chosen) if chosen.ticket.number() == number => Some(chosen),
        _ => None,
    }
}

// Whether the first session's request is held when that session goes, and is performed once.
fn is_performed_once<L: Ledger, R: Wait>(rt: &R, shared: &Tried<L>, pass: &mut Pass<L>) -> bool {
    let Some(chosen) = chosen(rt, shared, pass, 0) else {
        return false;
    };
    if pass.held() != 1 || shared.turn_gone(rt, pass, FIRST).is_err() {
        return false;
    }
    let performed = shared.turn_perform(rt, pass, chosen.ticket);
    performed == Some(true)
        && pass.held() == 0
        && shared.turn_perform(rt, pass, chosen.ticket).is_none()
}

// Whether the second session's READ is performed as number 1.
fn is_read<L: Ledger, R: Wait>(rt: &R, shared: &Tried<L>, pass: &mut Pass<L>) -> bool {
    let request = read_of(2);
    let arrived = shared.turn_arrive(rt, pass, SECOND, Moment::zero(), request);
    if arrived.ok() != accepted(1) {
        return false;
    }
    let Some(chosen) = chosen(rt, shared, pass, 1) else {
        return false;
    };
    shared.turn_perform(rt, pass, chosen.ticket) == Some(true)
}

// Whether the second session's oldest reply has what the first one wrote.
fn is_told<L: Ledger>(
    booked: &mut Booked<L, Paged<Global>, Heaped<Global>>,
    pass: &mut Pass<L>,
) -> bool {
    let Ok(Taken::Reply(reply)) = turn_take(booked, pass, SECOND) else {
        return false;
    };
    if reply.content().is_empty() {
        return false;
    }
    reply.cookie() == 2
        && reply.error() == 0
        && reply.content().from(0) == [0xde, 0xad, 0xbe, 0xef].as_slice()
}

// Whether that is the only reply, and the first session is gone.
fn is_all<L: Ledger>(
    booked: &mut Booked<L, Paged<Global>, Heaped<Global>>,
    pass: &mut Pass<L>,
) -> bool {
    matches!(turn_take(booked, pass, SECOND), Ok(Taken::Empty))
        && matches!(turn_take(booked, pass, FIRST), Err(SessionRefusal::NotOpen))
}

// Whether replies are taken under one hold of the server, which nobody else gets meanwhile.
fn are_taken<L: Ledger, R: Wait>(rt: &R, shared: &Tried<L>, pass: &mut Pass<L>) -> bool {
    let mut held = shared.hold(rt);
    let busy = shared.try_hold().is_none();
    busy && is_told(&mut *held, pass) && is_all(&mut *held, pass)
}

// Whether the second session leaves, and its replies then end.
fn leaves<L: Ledger, R: Wait>(rt: &R, shared: &Tried<L>, pass: &mut Pass<L>) -> bool {
    let free = shared.try_hold().is_some();
    free && shared.turn_leave(rt, pass, SECOND).is_ok()
        && matches!(shared.turn_take(rt, pass, SECOND), Ok(Taken::End))
        && shared.turn_gone(rt, pass, SECOND).is_ok()
}

// Whether the pass remembers that the second session has gone, as the last of its turns, and holds nothing.
fn remembers<L: Ledger>(pass: &Pass<L>) -> bool {
    let event = EventTrace::Gone {
        export: 0,
        session: 1,
    };
    let answer = AnswerTrace::Dropped;
    pass.last() == Some(Trace { event, answer }) && (pass.turns(), pass.held()) == (16, 0)
}

fn are_opened<L: Ledger, R: Wait>(rt: &R, shared: &Tried<L>, pass: &mut Pass<L>) -> bool {
    shared.turn_attach(rt, pass, 0) == Ok(FIRST) && shared.turn_attach(rt, pass, 0) == Ok(SECOND)
}

fn two_sessions<L: Ledger, R: Wait>(
    rt: &R,
    alloc: Global,
    shared: &Tried<L>,
    pass: &mut Pass<L>,
) -> bool {
    are_opened(rt, shared, pass)
        && is_sent(rt, alloc, shared, pass)
        && is_performed_once(rt, shared, pass)
        && is_read(rt, shared, pass)
        && are_taken(rt, shared, pass)
        && leaves(rt, shared, pass)
        && remembers(pass)
        && steps_of(rt, shared) == 12
}

#[test]
fn gone_is_still_served(rt: HostRuntime) {
    let well = plays::<Brand, _>(&rt, rt.alloc(), PLAIN, Blank::new(1), Play::Sessions);
    assert!(rt; well);
}

type Memory<'a> = &'a Refusing<Global>;

type Old<'a> = Server<Paged<Memory<'a>>, Listed<Memory<'a>>>;

type Opened<'a, L> = Shared<L, Paged<Memory<'a>>, Listed<Memory<'a>>>;

type Ended<'a, L> = Booked<L, Paged<Memory<'a>>, Listed<Memory<'a>>>;

// Whether three requests wait.
fn are_sent(server: &mut Old) -> bool {
    for cookie in 0..3u64 {
        let request = flush_of(cookie);
        if server.arrive(FIRST, Moment::zero(), request).is_err() {
            return false;
        }
    }
    true
}

// Seven counted steps: of three requests one is performed, one is in service and one waits.
fn serves(server: &mut Old) -> bool {
    if server.attach(0) != Ok(FIRST) || !are_sent(server) {
        return false;
    }
    let Some(chosen) = server.dispatch(Moment::zero()) else {
        return false;
    };
    server.dispatch(Moment::zero()).is_some() && server.perform(chosen.ticket).is_some()
}

// Whether a server shows those steps: its count, what waits, and the requests that are found in service.
fn is_served(server: &Old) -> bool {
    server.steps() == 7
        && server.waiting() == 1
        && server.find(0, 0).is_none()
        && server.find(0, 1).is_some()
        && server.find(0, 2).is_none()
}

// Whether the tags of what waits in such a server are those of the third of three arrivals at the first moment.
fn has_tags<'a>(memory: Memory<'a>, server: &Old<'a>) -> bool {
    let third = Tags {
        r: None,
        l: 0,
        p: 2_000_000_000,
    };
    match server.tags(memory, 0) {
        Ok(told) => told.as_slice() == [(2, third)].as_slice(),
        Err(_) => false,
    }
}

fn becomes_served<'a>(memory: Memory<'a>, server: &mut Old<'a>) -> bool {
    serves(server) && is_served(server) && has_tags(memory, server)
}

fn served<'a>(memory: Memory<'a>) -> Option<Old<'a>> {
    let Some(mut server) = server_of(memory, PLAIN) else {
        return None;
    };
    if becomes_served(memory, &mut server) {
        Some(server)
    } else {
        None
    }
}

// Whether a sweep leaves such a server as it was, and its base's catching up.
fn is_swept<'a, L: Ledger>(memory: Memory<'a>, booked: &mut Ended<'a, L>) -> bool {
    let Ok(mut outdated) = Outdated::with_room(memory, 4) else {
        return false;
    };
    booked.sweep(0, &mut outdated);
    booked.catch_up(0, 1);
    is_served(booked.server()) && has_tags(memory, booked.server())
}

// Whether a server that was shared is as it was before. A sweep takes memory, and goes only where none is refused any more.
fn is_kept<'a, L: Ledger>(memory: Memory<'a>, booked: &mut Ended<'a, L>) -> bool {
    is_served(booked.server()) && (memory.is_armed() || is_swept(memory, booked))
}

// The same, and its seven steps are settled.
fn ends<'a, L: Ledger>(
    memory: Memory<'a>,
    shared: Opened<'a, L>,
    passes: Vec<Pass<L>, Memory<'a>>,
) -> bool {
    let mut booked = shared.end();
    let kept = is_kept(memory, &mut booked);
    settled(booked, passes) == Some(7) && kept
}

// The same where the growth that was to be refused was: the server and the blank came back, with which this call succeeds.
fn opens_again<'a, L: Ledger>(memory: Memory<'a>, server: Old<'a>, blank: Blank, n: u64) -> bool
    requires some { 1 ≤ n }
    requires name { blank.name ≡ L.name }
    requires parts { blank.parts ≡ L.parts }
    requires passes { n ≡ blank.parts }
{
    let back = !memory.is_armed() && is_served(&server);
    match Opened::<'a, L>::new(memory, server, blank, n) {
        Ok((shared, passes)) => ends(memory, shared, passes) && back,
        Err(_) => false,
    }
}

// Whether a server is shared, at the second time where this growth is refused, and then ended.
fn opens<'a, L: Ledger>(memory: Memory<'a>, blank: Blank, n: u64, nth: u64) -> bool
    requires some { 1 ≤ n }
    requires name { blank.name ≡ L.name }
    requires parts { blank.parts ≡ L.parts }
    requires passes { n ≡ blank.parts }
{
    let Some(server) = served(memory) else {
        return false;
    };
    memory.arm(nth);
    match Opened::<'a, L>::new(memory, server, blank, n) {
        Ok((shared, passes)) => ends(memory, shared, passes),
        Err((_, server, blank)) => opens_again::<L>(memory, server, blank, n),
    }
}

// The steps counted so far are the first pass's share, and nothing else changes.
#[test]
fn earlier_steps_are_settled(rt: HostRuntime) {
    let memory = Refusing::new(rt.alloc(), 0);
    let well = opens::<Brand>(&memory, Blank::new(3), 3, 0);
    assert!(rt; well);
}

// There is one growth: the second isn't come to.
#[test]
fn refused_memory_hands_back(rt: HostRuntime) {
    for nth in 1..3u64 {
        let memory = Refusing::new(rt.alloc(), 0);
        let well = opens::<Brand>(&memory, Blank::new(2), 2, nth);
        assert!(rt; well && memory.is_armed() == (nth == 2));
    }
}

// Whether nothing is due at first, and then what waits.
fn tells_due<L: Ledger, R: Wait>(rt: &R, shared: &Tried<L>, pass: &mut Pass<L>) -> bool {
    if shared.turn_attach(rt, pass, 0) != Ok(FIRST) || shared.next_due(rt).is_some() {
        return false;
    }
    let Some(late) = Moment::new(9) else {
        return false;
    };
    let request = read_of(1);
    shared.turn_arrive(rt, pass, FIRST, late, request).is_ok() && shared.next_due(rt) == Some(late)
}

// What is due next is told through the lock.
#[test]
fn what_is_due_is_told(rt: HostRuntime) {
    let well = plays::<Brand, _>(&rt, rt.alloc(), PLAIN, Blank::new(1), Play::Due);
    assert!(rt; well);
}
