use export_cell::Outdated;
use nbd_link::{BytesUnderWay, Discards, Feed, SessionLink};
use nbd_service::{Askers, BusyWriters, LeftWrites};
use nbd_stream::Buffered;
use nbd_threads::{InteractiveLoad, RetuneGate, Traffic, TurnSeat, Turns};
use nbd_workers::Bell;
use payload::{Growing, Spares};
use server_core::SessionId;
use std::alloc::Global;
use std::io::{Read, Write};
use std::net::{TcpListener, TcpStream};
use std::sync::Wait;
use std::sync::atomic::{AtomicBool, AtomicU64};
use std::test::Fail;
use std::thread::Threads;
use std::{io, thread, time};
use turn_order::Rates;

/// The byte that is sent at a place.
fn byte_at(at: usize) -> u8 {
    (at % 251) as u8
}

/// Sends so many bytes, and ends.
fn send_bytes(alloc: Global, stream: &mut TcpStream, count: usize) -> io::Result<()> {
    let mut bytes = Vec::new(alloc);
    for at in 0..count {
        bytes.push(byte_at(at))?;
    }
    stream.write_all(bytes.as_slice())
}

/// What the threads of a server share with a session's.
#[derive(Drop)]
struct Shared {
    bell: Bell,
    interactive: InteractiveLoad,
    turns: Turns,
    gate: RetuneGate,
    waiting: AtomicU64,
    traffic: Traffic,
    writers: BusyWriters,
}

fn shared_of(alloc: Global) -> Option<Shared> {
    let rates = [Rates {
        reservation: 0,
        limit: 0,
        weight: 1,
    }];
    let Ok(turns) = Turns::of(alloc, &rates) else {
        return None;
    };
    Some(Shared {
        bell: Bell::new(),
        interactive: InteractiveLoad::new(),
        turns,
        gate: RetuneGate::new(),
        waiting: AtomicU64::new(0),
        traffic: Traffic::new(),
        writers: BusyWriters::new(),
    })
}

fn link_of<'a>(
    shared: &'a Shared,
    alloc: Global,
    peer: &'a TcpStream,
    patient: &'a AtomicBool,
    bytes: &'a BytesUnderWay<'a>,
    seat: &'a TurnSeat<'a>,
) -> Option<SessionLink<'a>> {
    let session = SessionId {
        export: 0,
        number: 0,
    };
    SessionLink::new(
        alloc,
        session,
        peer,
        patient,
        &shared.bell,
        &shared.interactive,
        seat,
        bytes,
        &shared.gate,
        &shared.bell,
    )
    .ok()
}

/// How many bytes come while they are read ahead, and whether each is the one that was sent.
fn fed<R: Wait + Threads + Sync + time::Clock>(
    rt: &R,
    alloc: Global,
    shared: &Shared,
    peer: &TcpStream,
) -> io::Result<(usize, bool)> {
    let patient = AtomicBool::new(false);
    let bytes = BytesUnderWay::new(&shared.waiting, &shared.traffic, &shared.writers);
    let seat = TurnSeat::new(&shared.turns, None, 0);
    match link_of(shared, alloc, peer, &patient, &bytes, &seat) {
        Some(link) => read_ahead(rt, alloc, &link),
        None => Ok((0, false)),
    }
}

fn read_ahead<R: Wait + Threads + Sync + time::Clock>(
    rt: &R,
    alloc: Global,
    link: &SessionLink<'_>,
) -> io::Result<(usize, bool)> {
    thread::scope(thread::scope_env(), rt, |scope| {
        let started = link.ahead.wants_thread()
            && scope
                .spawn(move || link.ahead.run(rt, alloc, link.peer))
                .is_ok();
        link.ahead.start();
        let told = match started {
            true => all_of(rt, alloc, link),
            false => Ok((0, false)),
        };
        link.ahead.end();
        told
    })
}

/// Whether bytes that were read ahead come into a payload, so many and no more, and each is the one that was sent.
fn begins<R: Wait + time::Clock>(alloc: Global, feed: &mut Feed<'_, '_, R>, whole: usize) -> bool {
    let mut spares = Spares::new(alloc);
    let Ok(mut payload) = Growing::new(&mut spares, 0) else {
        return false;
    };
    for _ in 0..whole {
        if payload.len() == whole {
            break;
        }
        if feed.append_buffered(&mut payload, &mut spares, whole) != Ok(true) {
            return false;
        }
    }
    let mut text = Vec::new(alloc);
    match payload.finish() {
        Ok(payload) => payload.append(&mut text).is_ok() && are_sent(&text, whole),
        Err(_) => false,
    }
}

fn are_sent(text: &[u8], count: usize) -> bool {
    for (at, byte) in text.iter().enumerate() {
        if *byte != byte_at(at) {
            return false;
        }
    }
    text.len() == count
}

fn all_of<R: Wait + time::Clock>(
    rt: &R,
    alloc: Global,
    link: &SessionLink<'_>,
) -> io::Result<(usize, bool)> {
    let mut feed = Feed::new(rt, link);
    let mut buffer = [0u8; 5_000];
    let mut at = 300_000usize;
    let mut well = begins(alloc, &mut feed, at);
    for _ in rt.forever() {
        let count = feed.read(&mut buffer)?;
        if count == 0 {
            break;
        }
        for byte in buffer.iter().take(count) {
            well = well && *byte == byte_at(at);
            at = at.saturating_add(1);
        }
    }
    Ok((at, well))
}

#[test]
fn bytes_that_are_read_ahead(rt: HostRuntime) -> Result<(), Fail> {
    let rt = &rt;
    let alloc = rt.alloc();
    let shared = &shared_of(alloc).ok_or("memory")?;
    let listener = &TcpListener::bind(rt, "127.0.0.1:0")?;
    let address = listener.local_addr()?;
    let (told, sent) = thread::join(
        rt,
        move || {
            let (peer, _) = listener.accept()?;
            fed(rt, alloc, shared, &peer)
        },
        move || send_bytes(alloc, &mut TcpStream::connect(rt, address)?, 3_000_000),
    );
    assert!(rt; sent.is_ok());
    assert_eq!(rt; told?, (3_000_000, true));
    Ok(())
}

/// Whether what holds took out is left to another thread at times when that lets such go and is done with what was left before, and at no
/// others.
fn is_left_in_turn<R: Wait>(rt: &R, alloc: Global, outdated: &mut Outdated<Global>) -> bool {
    let mut spares = Spares::new(alloc);
    let discards = Discards::new();
    let at_first = discards.leave(outdated, &mut spares);
    discards.work(rt, alloc);
    let once = discards.leave(outdated, &mut spares);
    let at_once = discards.leave(outdated, &mut spares);
    discards.work(rt, alloc);
    let behind = discards.leave(outdated, &mut spares);
    discards.let_go();
    let behind_own = discards.leave(outdated, &mut spares);
    discards.close(rt);
    let at_last = discards.leave(outdated, &mut spares);
    once && behind && behind_own && !at_first && !at_once && !at_last
}

#[test]
fn what_holds_took_out(rt: HostRuntime) -> Result<(), Fail> {
    let rt = &rt;
    let alloc = rt.alloc();
    let mut outdated = Outdated::with_room(alloc, 1).expect(rt, "memory");
    assert!(rt; is_left_in_turn(rt, alloc, &mut outdated));
    Ok(())
}

#[test]
fn writers_that_are_at_work(rt: HostRuntime) {
    let writers = BusyWriters::new();
    writers.begin();
    writers.begin();
    assert!(rt; writers.count() == 2);
    writers.end();
    assert!(rt; writers.count() == 1);
}

/// Which sessions are known to have asked for the first three of an export's requests, of which so many may be there.
fn known_askers(alloc: Global, requests: usize) -> Option<[Option<u64>; 3]> {
    let askers = Askers::new(alloc, requests).ok()?;
    askers.note(7, 0);
    askers.note(8, 1);
    askers.note(9, 2);
    Some([askers.of(0), askers.of(1), askers.of(2)])
}

#[test]
fn who_asked_for_the_latest_requests(rt: HostRuntime) {
    assert!(rt; known_askers(rt.alloc(), 3) == Some([Some(7), Some(8), Some(9)]));
    assert!(rt; known_askers(rt.alloc(), 2) == Some([None, Some(8), Some(9)]));
}

#[test]
fn writes_that_ended_sessions_left(rt: HostRuntime) {
    let left = LeftWrites::NONE.with(8, 3, 2).with(4, 4, 0);
    assert!(rt; left.bytes == 12 && left.until == 5);
    assert!(rt; !left.are_chosen(4) && left.are_chosen(5));
}
