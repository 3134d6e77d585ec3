//! A log whose 64 MiB of payload are full, by `Server::event`. Each growth of each attach and arrival is refused in turn: what
//! found no memory changed nothing but the base, so the next one is refused of the same event.

use super::journals::{Kept, counts, is_as_it_was};
use super::*;
use nbd_wire::protocol::WRITE;
use server_table::{Answer, Event};

const SIZE: usize = 33_554_432;

// A server of one export that a WRITE may fill.
fn made(memory: Memory<'_>) -> Option<Kept<'_>> {
    let mut list = ExportList::new(memory);
    if list.add(&ExportSettings::new(b"a", SIZE as u64)).is_err() {
        return None;
    }
    match Config::new(list, 32) {
        Ok(config) => Server::new(memory, &config).ok(),
        Err(_) => None,
    }
}

fn ones(memory: Memory<'_>) -> Option<Payload<Memory<'_>>> {
    let Ok(bytes) = Vec::from_elem(memory, 1u8, SIZE) else {
        return None;
    };
    Payload::copied(memory, 0, bytes.as_slice()).ok()
}

// A WRITE of the whole image.
fn write_of<'a>(payload: Payload<Memory<'a>>) -> Option<Request<Memory<'a>>> {
    if payload.len() != SIZE {
        return None;
    }
    let head = RequestHead {
        flags: 0,
        kind: WRITE,
        cookie: 7,
        offset: 0,
        length: 33_554_432,
    };
    Some(Request::new(head, payload))
}

// A payload's clone, which is made again where it found no memory.
fn clone_of<'a>(payload: &Payload<Memory<'a>>) -> Option<Payload<Memory<'a>>> {
    let first: Result<_, _> = payload.clone();
    if let Ok(clone) = first {
        return Some(clone);
    }
    let second: Result<_, _> = payload.clone();
    second.ok()
}

// An attach, or the arrival of the WRITE of this number.
fn event_of<'a>(payload: &Payload<Memory<'a>>, number: Option<u64>) -> Option<Event<Memory<'a>>> {
    if number.is_none() {
        return Some(Event::Attach { export: 0 });
    }
    let Some(clone) = clone_of(payload) else {
        return None;
    };
    match write_of(clone) {
        Some(request) => Some(Event::Arrive {
            export: 0,
            session: 0,
            moment: at(0),
            request,
        }),
        None => None,
    }
}

// Whether session 0 is opened, or the WRITE of this number waits.
fn is_made<'a>(answer: &Answer<Memory<'a>>, number: Option<u64>) -> bool {
    match answer {
        Answer::Session(session) => *session == 0 && number.is_none(),
        Answer::Accepted { number: told, .. } => number == Some(*told),
        _ => false,
    }
}

// The growth that is refused next where one was refused, and how far the base is: the first again where the base has gone on,
// since what is made then is less.
fn next_of(server: &Kept, before: (u64, u64, u64), nth: u64) -> Option<u64> {
    if server.waiting() != 0 || !is_as_it_was(server, before) {
        return None;
    }
    match counts(server, 0) {
        Some(now) if now.2 == before.2 => Some(nth.saturating_add(1)),
        Some(_) => Some(1),
        None => None,
    }
}

// How an event goes of which a growth is refused.
#[derive(Clone, Copy)]
enum Attempt {
    // It was made, and came to no such growth.
    Made,
    // It found no memory. The growth that is to be refused next.
    Refused(u64),
    Wrong,
}

// An event that is made, or found no memory where that was refused.
fn judged(memory: Memory, server: &Kept, before: (u64, u64, u64), nth: u64, made: bool) -> Attempt {
    match next_of(server, before, nth) {
        _ if made && memory.is_armed() => Attempt::Made,
        Some(next) if !made && !memory.is_armed() => Attempt::Refused(next),
        _ => Attempt::Wrong,
    }
}

fn tried<'a>(
    memory: Memory<'a>,
    server: &mut Kept<'a>,
    payload: &Payload<Memory<'a>>,
    number: Option<u64>,
    nth: u64,
) -> Attempt {
    memory.arm(0);
    let (Some(before), Some(event)) = (counts(server, 0), event_of(payload, number)) else {
        return Attempt::Wrong;
    };
    memory.arm(nth);
    match server.event(event) {
        Answer::NoMemory => judged(memory, server, before, nth, false),
        answer if is_made(&answer, number) => judged(memory, server, before, nth, true),
        _ => Attempt::Wrong,
    }
}

// How often an event was refused until it was made. None where it went wrong.
fn refusals<'a>(
    memory: Memory<'a>,
    server: &mut Kept<'a>,
    payload: &Payload<Memory<'a>>,
    number: Option<u64>,
) -> Option<u64> {
    let mut nth = 1u64;
    for refused in 0..1000u64 {
        match tried(memory, server, payload, number, nth) {
            Attempt::Made => return Some(refused),
            Attempt::Refused(next) => nth = next,
            Attempt::Wrong => return None,
        }
    }
    None
}

// The error of the reply that a performed WRITE has: 12 (ENOMEM) without memory.
fn performed(server: &mut Kept, number: u64) -> Option<u32> {
    match server.event(Event::Perform { export: 0, number }) {
        Answer::Performed { memory: true } => Some(0),
        Answer::Performed { memory: false } => Some(12),
        _ => None,
    }
}

// Whether the session's reply is of this error, without data.
fn is_replied(server: &mut Kept, error: u32) -> bool {
    let take = Event::Take {
        export: 0,
        session: 0,
    };
    match server.event(take) {
        Answer::Reply(reply) => {
            (reply.cookie(), reply.error()) == (7, error) && reply.content().is_empty()
        }
        _ => false,
    }
}

// Whether the WRITE that waits is chosen, performed with this growth refused, and answered.
fn is_done<'a>(memory: Memory<'a>, server: &mut Kept<'a>, number: u64, nth: u64) -> bool {
    memory.arm(nth);
    let chosen = matches!(
        server.event(Event::Dispatch { moment: at(0) }),
        Answer::Picked { .. }
    );
    match performed(server, number) {
        Some(error) => {
            let refused = nth != 0 && !memory.is_armed();
            chosen && (error == 12) == refused && is_replied(server, error)
        }
        None => false,
    }
}

// Whether so many growths at least were refused, and then these steps are counted.
fn is_grown(server: &Kept, refused: Option<u64>, least: u64, wanted: (u64, u64, u64)) -> bool {
    match refused {
        Some(refused) => refused >= least && counts(server, 0) == Some(wanted),
        None => false,
    }
}

// Two WRITEs of the whole image fill the log: for a third the attach and the first arrival go into the base. An attach makes
// an outbox and room in the log; the base has an outbox of its own.
fn fills<'a>(
    memory: Memory<'a>,
    server: &mut Kept<'a>,
    payload: &Payload<Memory<'a>>,
    nth: u64,
) -> bool {
    let opened = refusals(memory, server, payload, None);
    if !is_grown(server, opened, 2, (1, 1, 0)) {
        return false;
    }
    let first = refusals(memory, server, payload, Some(0));
    if !is_grown(server, first, 0, (2, 2, 0)) || !is_done(memory, server, 0, nth) {
        return false;
    }
    let second = refusals(memory, server, payload, Some(1));
    if !is_grown(server, second, 0, (6, 6, 0)) || !is_done(memory, server, 1, nth) {
        return false;
    }
    let third = refusals(memory, server, payload, Some(2));
    is_grown(server, third, 1, (10, 8, 2))
}

fn fills_at<'a>(memory: Memory<'a>, payload: &Payload<Memory<'a>>, nth: u64) -> bool {
    memory.arm(0);
    match made(memory) {
        Some(mut server) => fills(memory, &mut server, payload, nth),
        None => false,
    }
}

#[test]
fn each_growth_of_a_log_with_64_mib_is_refused(rt: HostRuntime) {
    let memory = Refusing::new(rt.alloc(), 0);
    let payload = ones(&memory).expect(&rt, "memory");
    for nth in 0..3u64 {
        assert!(rt; fills_at(&memory, &payload, nth), "at {nth}");
    }
}
