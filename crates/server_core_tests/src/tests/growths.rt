//! Rows of events by `Server::event`, in which each growth is refused in turn. An event that found no memory is made again.
//! A request that is performed without memory is told 12 (ENOMEM) and changes no byte.

use super::journals::Kept;
use super::*;
use nbd_wire::protocol::WRITE;
use server_table::{Answer, Event};
use tag_clock::{Phase, Tags};

// An event by its numbers.
#[derive(Clone, Copy)]
enum Act {
    Attach(u32),
    // A READ of four bytes: its export, session, moment and cookie, which is one more than its number.
    Read(u32, u64, u64, u64),
    // A WRITE of `deadbeef`, likewise.
    Write(u32, u64, u64, u64),
    Dispatch(u64),
    Perform(u32, u64),
    Take(u32, u64),
    Leave(u32, u64),
    Gone(u32, u64),
}

// What an event is answered: a word and up to three numbers. Of a reply these are its cookie, its error, and its data with
// their length before them.
type Told = (&'static str, u64, u64, u64);

type Row = (Act, Told);

const ZEROS: u64 = 0x4_0000_0000;

const WRITTEN: u64 = 0x4_dead_beef;

// Which requests of export 1 wait: the number of the first and how many, their L tag, and the P tag of the first.
type Waiting = (u64, u64, i128, i128);

// Rows, and what waits at export 1 before each of them.
type Part = (Waiting, &'static [Row]);

const NONE: Waiting = (0, 0, 0, 0);

// The write of a session that is gone is still done, and another session reads it. Two requests of the other export wait
// meanwhile, due a while later; the first arrival takes their P tags down to its moment.
const GONE: [Part; 6] = [
    (
        NONE,
        &[
            (Act::Attach(0), ("session", 0, 0, 0)),
            (Act::Attach(0), ("session", 1, 0, 0)),
            (Act::Attach(1), ("session", 0, 0, 0)),
            (Act::Read(1, 0, 1000, 1), ("accepted", 0, 1000, 0)),
        ],
    ),
    (
        (0, 1, 1000, 1000),
        &[(Act::Read(1, 0, 1000, 2), ("accepted", 1, 1000, 0))],
    ),
    (
        (0, 2, 1000, 1000),
        &[(Act::Write(0, 0, 0, 1), ("accepted", 0, 0, 0))],
    ),
    (
        (0, 2, 1000, 0),
        &[
            (Act::Dispatch(0), ("weight", 0, 0, 0)),
            (Act::Gone(0, 0), ("gone", 0, 0, 0)),
            (Act::Perform(0, 0), ("performed", 0, 0, 0)),
            (Act::Perform(0, 0), ("not out", 0, 0, 0)),
            (Act::Read(0, 1, 0, 2), ("accepted", 1, 0, 0)),
            (Act::Dispatch(0), ("weight", 0, 1, 0)),
            (Act::Perform(0, 1), ("performed", 0, 0, 0)),
            (Act::Take(0, 1), ("reply", 2, 0, WRITTEN)),
            (Act::Take(0, 1), ("empty", 0, 0, 0)),
            (Act::Take(0, 0), ("not open", 0, 0, 0)),
            (Act::Leave(0, 1), ("left", 0, 0, 0)),
            (Act::Take(0, 1), ("end", 0, 0, 0)),
            (Act::Gone(0, 1), ("gone", 0, 0, 0)),
            (Act::Dispatch(1000), ("weight", 1, 0, 0)),
        ],
    ),
    (
        (1, 1, 1000, 1_000_000_000),
        &[
            (Act::Perform(1, 0), ("performed", 0, 0, 0)),
            (Act::Take(1, 0), ("reply", 1, 0, ZEROS)),
            (Act::Dispatch(0), ("weight", 1, 1, 0)),
        ],
    ),
    (
        NONE,
        &[
            (Act::Perform(1, 1), ("performed", 0, 0, 0)),
            (Act::Take(1, 0), ("reply", 2, 0, ZEROS)),
            (Act::Leave(1, 0), ("left", 0, 0, 0)),
            (Act::Gone(1, 0), ("gone", 0, 0, 0)),
        ],
    ),
];

// A queue of two, before the other export is sent 1,000 requests and behind that.
const BEFORE_THE_CROWD: [Row; 4] = [
    (Act::Attach(0), ("session", 0, 0, 0)),
    (Act::Attach(1), ("session", 0, 0, 0)),
    (Act::Read(0, 0, 0, 1), ("accepted", 0, 0, 0)),
    (Act::Read(0, 0, 0, 2), ("accepted", 1, 0, 0)),
];

const BEHIND_THE_CROWD: [Row; 4] = [
    (Act::Read(0, 0, 0, 3), ("answered", 5, 0, 0)),
    (Act::Dispatch(0), ("weight", 0, 0, 0)),
    (Act::Read(0, 0, 0, 4), ("accepted", 2, 0, 0)),
    (Act::Take(0, 0), ("reply", 3, 5, 0)),
];

const CROWD: u64 = 1000;

// A server of two exports of 4,096 bytes. Two requests of the first may wait, and 1,024 of the second.
fn made(memory: Memory<'_>) -> Option<Kept<'_>> {
    let mut list = ExportList::new(memory);
    for (name, rates) in [(b"a", [0, 0, 1, 2, 256]), (b"b", [0, 0, 1, 1024, 1024])] {
        let sized = ExportSettings {
            size: 4096,
            ..settings(name.as_slice(), &rates)
        };
        if list.add(&sized).is_err() {
            return None;
        }
    }
    match Config::new(list, 32) {
        Ok(config) => Server::new(memory, &config).ok(),
        Err(_) => None,
    }
}

// A request of four bytes at the beginning. A payload that found no memory is made again.
fn request_of<'a>(memory: Memory<'a>, kind: u16, cookie: u64) -> Option<Request<Memory<'a>>> {
    if kind != WRITE {
        return Some(read_of(cookie));
    }
    let bytes = [0xde, 0xad, 0xbe, 0xef];
    let made = match Payload::copied(memory, 0, bytes.as_slice()) {
        Ok(payload) => Ok(payload),
        Err(_) => Payload::copied(memory, 0, bytes.as_slice()),
    };
    let Ok(payload) = made else {
        return None;
    };
    let head = RequestHead {
        flags: 0,
        kind: WRITE,
        cookie,
        offset: 0,
        length: 4,
    };
    Some(Request::new(head, payload))
}

// An arrival: its export, session, moment and cookie.
fn arrival<'a>(memory: Memory<'a>, kind: u16, told: [u64; 4]) -> Option<Event<Memory<'a>>> {
    let [export, session, moment, cookie] = told;
    match request_of(memory, kind, cookie) {
        Some(request) => Some(Event::Arrive {
            export: u32::try_from(export).unwrap_or(u32::MAX),
            session,
            moment: at(moment),
            request,
        }),
        None => None,
    }
}

fn event_of<'a>(memory: Memory<'a>, act: Act) -> Option<Event<Memory<'a>>> {
    match act {
        Act::Attach(export) => Some(Event::Attach { export }),
        Act::Read(export, session, moment, cookie) => {
            arrival(memory, READ, [u64::from(export), session, moment, cookie])
        }
        Act::Write(export, session, moment, cookie) => {
            arrival(memory, WRITE, [u64::from(export), session, moment, cookie])
        }
        Act::Dispatch(moment) => Some(Event::Dispatch { moment: at(moment) }),
        Act::Perform(export, number) => Some(Event::Perform { export, number }),
        Act::Take(export, session) => Some(Event::Take { export, session }),
        Act::Leave(export, session) => Some(Event::Leave { export, session }),
        Act::Gone(export, session) => Some(Event::Gone { export, session }),
    }
}

// Whether an event may find no memory.
fn may_want_memory(act: Act) -> bool {
    matches!(
        act,
        Act::Attach(_) | Act::Read(..) | Act::Write(..) | Act::Perform(..)
    )
}

// The data of a reply with their length before them.
fn data_of(reply: &Reply<Memory<'_>>) -> u64 {
    if reply.content().is_empty() {
        return 0;
    }
    let bytes = reply.content().from(0);
    let mut data = 0u64;
    for byte in bytes.iter().take(4) {
        data = data << 8 | u64::from(*byte);
    }
    (bytes.len() as u64) << 32 | data
}

fn told_of(answer: &Answer<Memory<'_>>) -> Told {
    match answer {
        Answer::Session(number) => ("session", *number, 0, 0),
        Answer::Accepted { number, limit_tag } => (
            "accepted",
            *number,
            u64::try_from(*limit_tag).unwrap_or(u64::MAX),
            0,
        ),
        Answer::Answered(error) => ("answered", u64::from(*error), 0, 0),
        Answer::Picked {
            export,
            number,
            phase: Phase::Weight,
        } => ("weight", u64::from(*export), *number, 0),
        Answer::Performed { memory: true } => ("performed", 0, 0, 0),
        Answer::Performed { memory: false } => ("performed without memory", 0, 0, 0),
        Answer::Reply(reply) => (
            "reply",
            reply.cookie(),
            u64::from(reply.error()),
            data_of(reply),
        ),
        other => (word_of(other), 0, 0, 0),
    }
}

fn word_of(answer: &Answer<Memory<'_>>) -> &'static str {
    match answer {
        Answer::Empty => "empty",
        Answer::End => "end",
        Answer::Left => "left",
        Answer::Dropped => "gone",
        Answer::NotOpen => "not open",
        Answer::NotOut => "not out",
        Answer::NoMemory => "no memory",
        _ => "another answer",
    }
}

// A request's bit among those that were performed without memory.
fn bit_of(export: u32, number: u64) -> u64 {
    let first = if export == 0 { 1u64 } else { 1 << 32 };
    first
        .checked_shl(u32::try_from(number).unwrap_or(64))
        .unwrap_or(0)
}

// What a reply is where these requests were performed without memory: without data for such a request, and zeros for a READ
// of what wasn't written.
fn reply_without(export: u32, told: Told, lost: u64) -> Told {
    let (word, cookie, error, data) = told;
    if error != 0 {
        return told;
    }
    if lost & bit_of(export, cookie.saturating_sub(1)) != 0 {
        return (word, cookie, 12, 0);
    }
    if data != 0 && lost & bit_of(0, 0) != 0 {
        return (word, cookie, 0, ZEROS);
    }
    told
}

// Whether an event is answered as its row says, but for what was performed without memory.
fn is_told(act: Act, told: Told, answer: Told, lost: &mut u64) -> bool {
    match act {
        Act::Perform(export, number) if answer.0 == "performed without memory" => {
            *lost |= bit_of(export, number);
            told.0 == "performed"
        }
        Act::Take(export, _) if told.0 == "reply" => answer == reply_without(export, told, *lost),
        _ => answer == told,
    }
}

// Whether these requests of export 1 wait, a second apart by weight.
fn are_waiting(told: &[(u64, Tags)], waiting: Waiting) -> bool {
    let (first, count, l, p) = waiting;
    let mut next = (first, p);
    for (number, tags) in told {
        let wanted = Tags {
            r: None,
            l,
            p: next.1,
        };
        if *number != next.0 || *tags != wanted {
            return false;
        }
        next = (
            next.0.saturating_add(1),
            next.1.saturating_add(1_000_000_000),
        );
    }
    told.len() as u64 == count
}

// Whether this waits at export 1.
fn has_waiting<'a>(memory: Memory<'a>, server: &Kept<'a>, waiting: Waiting) -> bool {
    match server.tags(memory, 1) {
        Ok(told) => are_waiting(told.as_slice(), waiting),
        Err(_) => false,
    }
}

// What an event is answered, once, without any memory asked for where it may not want some.
fn answered<'a>(memory: Memory<'a>, server: &mut Kept<'a>, act: Act) -> Option<Told> {
    let Some(event) = event_of(memory, act) else {
        return None;
    };
    let armed = memory.is_armed();
    let told = told_of(&server.event(event));
    if may_want_memory(act) || armed == memory.is_armed() {
        Some(told)
    } else {
        None
    }
}

// What an event is answered that is made again where it found no memory, which was refused then and changed nothing.
fn answered_at_last<'a>(
    memory: Memory<'a>,
    server: &mut Kept<'a>,
    act: Act,
    waiting: Waiting,
) -> Option<Told> {
    let before = (memory.is_armed(), server.steps(), server.waiting());
    let Some(told) = answered(memory, server, act) else {
        return None;
    };
    if told.0 != "no memory" && told.0 != "performed without memory" {
        return Some(told);
    }
    if !before.0 || memory.is_armed() || !has_waiting(memory, server, waiting) {
        return None;
    }
    if told.0 == "performed without memory" {
        return Some(told);
    }
    if (server.steps(), server.waiting()) != (before.1, before.2) {
        return None;
    }
    answered(memory, server, act)
}

// Whether each row is answered so.
fn goes<'a>(
    memory: Memory<'a>,
    server: &mut Kept<'a>,
    rows: &[Row],
    waiting: Waiting,
    lost: &mut u64,
) -> bool {
    for (act, told) in rows {
        let Some(answer) = answered_at_last(memory, server, *act, waiting) else {
            return false;
        };
        if !is_told(*act, *told, answer, lost) {
            return false;
        }
    }
    true
}

fn goes_when_gone<'a>(memory: Memory<'a>, server: &mut Kept<'a>) -> bool {
    let mut lost = 0u64;
    for (waiting, rows) in &GONE {
        if !goes(memory, server, rows, *waiting, &mut lost) {
            return false;
        }
    }
    server.steps() == 23
}

// Whether the crowd's requests wait.
fn are_crowded<'a>(memory: Memory<'a>, server: &mut Kept<'a>, lost: &mut u64) -> bool {
    for number in 0..CROWD {
        let rows = [(
            Act::Read(1, 0, 0, number.saturating_add(1)),
            ("accepted", number, 0, 0),
        )];
        if !goes(memory, server, &rows, (0, number, 0, 0), lost) {
            return false;
        }
    }
    true
}

fn goes_in_a_crowd<'a>(memory: Memory<'a>, server: &mut Kept<'a>) -> bool {
    let mut lost = 0u64;
    goes(memory, server, &BEFORE_THE_CROWD, NONE, &mut lost)
        && are_crowded(memory, server, &mut lost)
        && goes(
            memory,
            server,
            &BEHIND_THE_CROWD,
            (0, CROWD, 0, 0),
            &mut lost,
        )
        && server.steps() == 1008
}

// Two requests of the other export wait, due later.
const BEFORE_THE_ROUNDS: [Part; 2] = [
    (
        NONE,
        &[
            (Act::Attach(0), ("session", 0, 0, 0)),
            (Act::Attach(1), ("session", 0, 0, 0)),
            (Act::Read(1, 0, 1000, 1), ("accepted", 0, 1000, 0)),
        ],
    ),
    (
        (0, 1, 1000, 1000),
        &[(Act::Read(1, 0, 1000, 2), ("accepted", 1, 1000, 0))],
    ),
];

const ROUNDS: u64 = 20;

// A READ that arrives while nothing of its export waits takes the other export's P tags to its moment, and is served.
fn goes_round<'a>(memory: Memory<'a>, server: &mut Kept<'a>, number: u64, lost: &mut u64) -> bool {
    let moment = number.saturating_add(1);
    let before = if number == 0 {
        1000
    } else {
        i128::from(number)
    };
    let arrival = [(
        Act::Read(0, 0, moment, moment),
        ("accepted", number, moment, 0),
    )];
    let service = [
        (Act::Dispatch(moment), ("weight", 0, number, 0)),
        (Act::Perform(0, number), ("performed", 0, 0, 0)),
        (Act::Take(0, 0), ("reply", moment, 0, ZEROS)),
    ];
    goes(memory, server, &arrival, (0, 2, 1000, before), lost)
        && goes(
            memory,
            server,
            &service,
            (0, 2, 1000, i128::from(moment)),
            lost,
        )
}

fn goes_in_rounds<'a>(memory: Memory<'a>, server: &mut Kept<'a>) -> bool {
    let mut lost = 0u64;
    for (waiting, rows) in &BEFORE_THE_ROUNDS {
        if !goes(memory, server, rows, *waiting, &mut lost) {
            return false;
        }
    }
    for number in 0..ROUNDS {
        if !goes_round(memory, server, number, &mut lost) {
            return false;
        }
    }
    server.steps() == 84
}

#[derive(Clone, Copy)]
enum Play {
    Gone,
    Crowd,
    Rounds,
}

// Whether events are answered as they should be where this growth is refused.
fn goes_at(memory: Memory, nth: u64, play: Play) -> bool {
    let Some(mut server) = made(memory) else {
        return false;
    };
    memory.arm(nth);
    match play {
        Play::Gone => goes_when_gone(memory, &mut server),
        Play::Crowd => goes_in_a_crowd(memory, &mut server),
        Play::Rounds => goes_in_rounds(memory, &mut server),
    }
}

// How many growths there are, each of which was refused in turn. 0 where an answer was wrong, or there is no end.
fn growths_of(alloc: Global, play: Play) -> u64 {
    for nth in 1..1000u64 {
        let memory = Refusing::new(alloc, 0);
        if !goes_at(&memory, nth, play) {
            return 0;
        }
        if memory.is_armed() {
            return nth - 1;
        }
    }
    0
}

// In each row an outbox and a log for each attach, and a log's growth for each doubling.
#[test]
fn each_growth_of_two_exports_is_refused_in_turn(rt: HostRuntime) {
    assert!(rt; growths_of(rt.alloc(), Play::Gone) >= 5);
    assert!(rt; growths_of(rt.alloc(), Play::Crowd) >= 6);
    assert!(rt; growths_of(rt.alloc(), Play::Rounds) >= 6);
}
