//! One client's connection: its handshake, and then a thread that reads requests beside one that writes replies.

use crate::batch::RequestSource;
use crate::handshake::{HandshakeClock, HandshakeSocket};
use crate::reader::read_requests;
use crate::writer::write_replies;
use nbd_base::NoMemory;
use nbd_link::{BytesUnderWay, Feed, SessionLink};
use nbd_policy::FLUSH_WAIT_MS;
use nbd_service::{Service, Wakeups};
use nbd_session::{Entry, haggle};
use nbd_stream::Counted;
use nbd_threads::{Connection, RetuneGate, TurnSeat};
use server_core::SessionId;
use server_lock::Pass;
use session_turns::Door;
use std::net::TcpStream;
use std::sync::atomic::AtomicBool;
use std::sync::ledger::Ledger;
use std::sync::{Arc, Wait};
use std::thread::Threads;
use std::time::Duration;
use std::{thread, time};
use tag_clock::Clock;

/// A client that has chosen its export, before anything of its session was read.
#[derive(Drop)]
pub struct Entered<L: Ledger> {
    connection: Arc<Connection>,
    session: SessionId,
    pass: Pass<L>,
}

impl<L: Ledger> Entered<L> {
    /// Its export, by its number.
    pub fn export(&self) -> u32 {
        self.session.export
    }
}

/// Makes a client's handshake. None where its connection is over.
pub fn enter<L: Ledger + Send + Sync, R: Wait + Threads + Sync + time::Clock>(
    rt: &R,
    service: &Service<L>,
    peer: TcpStream,
) -> Option<Entered<L>> {
    let connection = service.connections.enter(rt, service.alloc, peer)?;
    let Some(pass) = service.passes.borrow(rt) else {
        service.connections.leave(rt, &*connection);
        return None;
    };
    let (session, pass) = shake_hands(rt, service, &connection.peer, pass);
    match session {
        Some(session) => {
            connection.begin(rt, session, service.clock(rt).now());
            Some(Entered {
                connection,
                session,
                pass,
            })
        }
        None => {
            service.passes.give_back(rt, pass);
            service.connections.leave(rt, &*connection);
            None
        }
    }
}

/// The session that a client is given in its handshake, where it ends with one.
fn shake_hands<L: Ledger, R: Wait + time::Clock>(
    rt: &R,
    service: &Service<L>,
    peer: &TcpStream,
    pass: Pass<L>,
) -> (Option<SessionId>, Pass<L>) {
    let clock = HandshakeClock::new(rt);
    let mut reader = Counted::new(HandshakeSocket::new(peer, &clock));
    let mut writer = Counted::new(HandshakeSocket::new(peer, &clock));
    let mut door = Door::new(rt, &service.shared, pass);
    let entry = haggle(
        service.alloc,
        &service.table,
        &mut reader,
        &mut writer,
        &mut door,
    );
    let session = door.session();
    let mut pass = door.into_pass();
    match (entry, session) {
        (Ok(Entry::In(_)), _) => (session, pass),
        (_, Some(session)) => {
            service.give_up(rt, session, &mut pass);
            (None, pass)
        }
        (_, None) => (None, pass),
    }
}

/// Serves a client to its end, whichever way that comes.
pub fn serve<L: Ledger + Send + Sync, R: Wait + Threads + Sync + time::Clock>(
    rt: &R,
    service: &Service<L>,
    entered: Entered<L>,
) {
    let Entered {
        connection,
        session,
        mut pass,
    } = entered;
    serve_session(rt, service, &*connection, session, &mut pass);
    connection.end(rt);
    service.passes.give_back(rt, pass);
    service.connections.leave(rt, &*connection);
}

fn serve_session<L: Ledger + Send + Sync, R: Wait + Threads + Sync + time::Clock>(
    rt: &R,
    service: &Service<L>,
    connection: &Connection,
    session: SessionId,
    pass: &mut Pass<L>,
) {
    let peer = &connection.peer;
    let _ = peer.set_read_timeout(None);
    // Where it can't be set, a reader waits for a client that doesn't read.
    let _ = peer.set_write_timeout(Some(Duration::from_millis(FLUSH_WAIT_MS)));
    let patient = AtomicBool::new(false);
    let wakeups = Wakeups::new(service.alloc);
    let Some(all_waiting) = service.waiting_writes.get(session.export as usize) else {
        return;
    };
    let Some(gate) = service.retunes.gate(session.export) else {
        return;
    };
    let bytes = BytesUnderWay::new(all_waiting, &connection.traffic, &service.writers);
    let seat = TurnSeat::new(&service.turns, service.start, session.export);
    let link = link_of(service, peer, &patient, &bytes, &seat, gate, session);
    if let (Ok(link), Ok(wakeups)) = (link, wakeups) {
        let feed = Counted::new(Feed::new(rt, &link));
        if let Ok(source) = RequestSource::new(service.alloc, feed, wakeups) {
            read_and_write(rt, service, &link, source, pass);
        }
    }
    service.leave_writes(rt, session.export, bytes.leave());
    // The writer has dropped the session, where there was one.
    service.give_up(rt, session, pass);
}

/// What the threads of the session share.
fn link_of<'a, L: Ledger>(
    service: &'a Service<L>,
    peer: &'a TcpStream,
    patient: &'a AtomicBool,
    bytes: &'a BytesUnderWay<'a>,
    seat: &'a TurnSeat<'a>,
    gate: &'a RetuneGate,
    session: SessionId,
) -> Result<SessionLink<'a>, NoMemory> {
    let replies = service.bells.replies(session);
    let interactive = &service.interactive;
    SessionLink::new(
        service.alloc,
        session,
        peer,
        patient,
        replies,
        interactive,
        seat,
        bytes,
        gate,
        &service.bells.work,
    )
}

/// The writer has a thread of its own, the reader this one.
fn read_and_write<L: Ledger + Send + Sync, R: Wait + Threads + Sync + time::Clock>(
    rt: &R,
    service: &Service<L>,
    link: &SessionLink<'_>,
    source: RequestSource<'_, '_, R>,
    pass: &mut Pass<L>,
) {
    thread::scope(thread::scope_env(), rt, |scope| {
        let started = scope.spawn(move || write_replies(rt, service, link));
        if started.is_ok() {
            read_requests(rt, scope, service, link, source, pass);
        }
        link.seat.leave(rt, false);
        link.ahead.end();
    });
}
