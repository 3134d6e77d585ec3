//! The connections that are open, for those who look at them or end them.

use nbd_base::NoMemory;
use server_core::SessionId;
use std::alloc::Global;
use std::net::{Shutdown, TcpStream};
use std::sync::atomic::{AtomicU64, Ordering};
use std::sync::{Arc, Mutex, Wait};
use tag_clock::Moment;

/// What a session did and has at hand. Its own threads alone write it.
#[derive(Drop)]
pub struct Traffic {
    /// How many requests were handed in.
    pub arrived: AtomicU64,
    /// How many replies were taken.
    pub taken: AtomicU64,
    /// How many bytes its READs ask for that aren't written to its client, and its WRITEs carry that weren't performed under the hold
    /// that handed them in; the latter, and those of READs that were answered with an error, count until nothing of it is under way.
    pub bytes: AtomicU64,
}

impl Traffic {
    /// None yet.
    pub fn new() -> Traffic {
        Traffic {
            arrived: AtomicU64::new(0),
            taken: AtomicU64::new(0),
            bytes: AtomicU64::new(0),
        }
    }

    /// How many requests were handed in whose replies weren't taken.
    pub fn under_way(&self) -> u64 {
        let taken = self.taken.load(Ordering::SeqCst);
        self.arrived.load(Ordering::SeqCst).wrapping_sub(taken)
    }
}

/// A client's connection, and its session, once it has one.
#[derive(Drop)]
pub struct Connection {
    pub peer: TcpStream,
    pub traffic: Traffic,
    id: u64,
    session: Mutex<Option<OpenSession>>,
}

/// The session of a connection.
#[derive(Clone, Copy, Debug, PartialEq, Eq, Drop)]
struct OpenSession {
    session: SessionId,
    since: Moment,
}

impl Connection {
    /// A session was opened.
    pub fn begin<R: Wait>(&self, rt: &R, session: SessionId, since: Moment) {
        *self.session.lock(rt) = Some(OpenSession { session, since });
    }

    /// The session is over, or is about to be dropped.
    pub fn end<R: Wait>(&self, rt: &R) {
        *self.session.lock(rt) = None;
    }

    /// The client sends nothing more, and is sent nothing more.
    fn cut(&self) {
        let _ = self.peer.shutdown(Shutdown::Both);
    }

    /// Where the client is: its address and port, or `unix`.
    fn address(&self, alloc: Global) -> Result<String, NoMemory> {
        let told = match self.peer.peer_addr() {
            Ok(address) => format!(in alloc; "{address}"),
            Err(_) => format!(in alloc; "unix"),
        };
        match told {
            Ok(text) => Ok(text),
            Err(_) => Err(NoMemory),
        }
    }
}

/// What is known of a session that is open.
#[derive(Debug, Drop)]
pub struct SessionFigures {
    pub session: SessionId,
    pub address: String,
    /// Since it was opened, in nanoseconds.
    pub connected: u64,
    /// That were handed in.
    pub requests: u64,
    /// Of these, those whose replies weren't taken.
    pub outstanding: u64,
    /// As `Traffic::bytes`.
    pub under_way_bytes: u64,
}

/// The connections that are open.
#[derive(Drop)]
pub struct Connections {
    open: Mutex<Open>,
}

#[derive(Drop)]
struct Open {
    list: Vec<Arc<Connection>>,
    next: u64,
    // Whether each that comes is cut.
    cuts: bool,
}

impl Connections {
    pub fn new(alloc: Global) -> Connections {
        Connections {
            open: Mutex::new(Open {
                list: Vec::new(alloc),
                next: 0,
                cuts: false,
            }),
        }
    }

    /// A client's connection was accepted. None where all are cut, or no memory is there.
    pub fn enter<R: Wait>(
        &self,
        rt: &R,
        alloc: Global,
        peer: TcpStream,
    ) -> Option<Arc<Connection>> {
        let mut open = self.open.lock(rt);
        if open.cuts {
            return None;
        }
        let id = open.next;
        open.next = id.wrapping_add(1);
        let connection = Connection {
            peer,
            traffic: Traffic::new(),
            id,
            session: Mutex::new(None),
        };
        let own = Arc::new(alloc, connection).ok()?;
        let listed = Arc::try_clone(&own).ok()?;
        open.list.push(listed).ok()?;
        Some(own)
    }

    /// It is over.
    pub fn leave<R: Wait>(&self, rt: &R, connection: &Connection) {
        let mut open = self.open.lock(rt);
        let place = open
            .list
            .iter()
            .position(|listed| listed.id == connection.id);
        if let Some(at) = place {
            if at < open.list.len() {
                drop(open.list.remove(at));
            }
        }
    }

    /// How many are open.
    pub fn count<R: Wait>(&self, rt: &R) -> usize {
        self.open.lock(rt).list.len()
    }

    /// Cuts the connection of a session. False where there is no such session.
    pub fn cut<R: Wait>(&self, rt: &R, session: SessionId) -> bool {
        let open = self.open.lock(rt);
        for connection in open.list.as_slice() {
            if session_of(rt, connection) == Some(session) {
                connection.cut();
                return true;
            }
        }
        false
    }

    /// Cuts all, and each that comes from now on.
    pub fn cut_all<R: Wait>(&self, rt: &R) {
        let mut open = self.open.lock(rt);
        open.cuts = true;
        for connection in open.list.as_slice() {
            connection.cut();
        }
    }

    /// How many sessions of an export are open.
    pub fn sessions_of<R: Wait>(&self, rt: &R, export: u32) -> u64 {
        let open = self.open.lock(rt);
        let mut count = 0u64;
        for connection in open.list.as_slice() {
            if let Some(session) = session_of(rt, connection) {
                count = count.saturating_add((session.export == export) as u64);
            }
        }
        count
    }

    /// The sessions that are open, in the order in which their clients connected.
    pub fn sessions<R: Wait>(
        &self,
        rt: &R,
        alloc: Global,
        now: Moment,
    ) -> Result<Vec<SessionFigures>, NoMemory> {
        let open = self.open.lock(rt);
        let mut told = Vec::new(alloc);
        for connection in open.list.as_slice() {
            let session = *connection.session.lock(rt);
            if let Some(session) = session {
                told.push(figures_of(alloc, connection, session, now)?)?;
            }
        }
        Ok(told)
    }
}

fn session_of<R: Wait>(rt: &R, connection: &Connection) -> Option<SessionId> {
    let session = *connection.session.lock(rt);
    session.map(|open| open.session)
}

fn figures_of(
    alloc: Global,
    connection: &Connection,
    open: OpenSession,
    now: Moment,
) -> Result<SessionFigures, NoMemory> {
    let traffic = &connection.traffic;
    Ok(SessionFigures {
        session: open.session,
        address: connection.address(alloc)?,
        connected: now.nanoseconds().saturating_sub(open.since.nanoseconds()),
        requests: traffic.arrived.load(Ordering::SeqCst),
        outstanding: traffic.under_way(),
        under_way_bytes: traffic.bytes.load(Ordering::SeqCst),
    })
}
