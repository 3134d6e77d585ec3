//! Where the threads of a server sleep, and who is woken by what.

use crate::askers::Askers;
use nbd_base::NoMemory;
use nbd_commands::{Config, ExportConfig};
use nbd_policy::{SESSION_BELLS, Waiting, bell_of};
use nbd_threads::Timekeeper;
use nbd_workers::Bell;
use server_core::{SessionId, Ticket};
use std::alloc::Global;
use std::sync::atomic::{AtomicBool, Ordering};

/// The bells of a server.
#[derive(Drop)]
pub struct Bells {
    /// Rung where something waits that no thread is about to choose.
    pub work: Bell,
    // Whether something waits until fewer are in service.
    crowded: AtomicBool,
    /// When a worker looks by itself.
    pub time: Timekeeper,
    desks: Vec<Desk>,
}

/// One export's bells, and which of its sessions asked for which request.
#[derive(Drop)]
struct Desk {
    // A session's bell is found by its number. Two sessions that share one wake each other for nothing.
    replies: Vec<Bell>,
    askers: Askers,
}

impl Bells {
    pub fn new(alloc: Global, config: &Config<Global>) -> Result<Bells, NoMemory> {
        let mut desks = Vec::new(alloc);
        for export in config.exports() {
            desks.push(Desk::new(alloc, export, config.inflight())?)?;
        }
        Ok(Bells {
            work: Bell::new(),
            crowded: AtomicBool::new(false),
            time: Timekeeper::new(),
            desks,
        })
    }

    /// Wakes a worker for what waits, unless one looks by the time that it is due, or a writer chooses it.
    pub fn ring_for(&self, waiting: Waiting, writer_chooses: bool) {
        if self.time.tell(waiting, writer_chooses) {
            self.work.ring_one();
        }
    }

    /// A worker found as many in service as may be, while something waits. It looks once more after this, before it sleeps.
    pub fn note_crowd(&self) {
        self.crowded.store(true, Ordering::SeqCst);
    }

    /// A request was performed: wakes a worker, where something waits for that.
    pub fn make_way(&self) {
        if self.crowded.load(Ordering::SeqCst) {
            self.crowded.store(false, Ordering::SeqCst);
            self.work.ring_one();
        }
    }

    /// The bell that is rung where a session has a reply, or has left.
    pub fn replies(&self, session: SessionId) -> &Bell {
        match self.desks.get(session.export as usize) {
            Some(desk) => desk.replies(session.number).unwrap_or(&self.work),
            None => &self.work,
        }
    }

    /// Notes which session asked for a request, under the hold in which it came.
    pub fn note_asker(&self, session: SessionId, request: u64) {
        if let Some(desk) = self.desks.get(session.export as usize) {
            desk.askers.note(session.number, request);
        }
    }

    /// The session that asked for a request, where that is still known.
    pub fn asker(&self, ticket: &Ticket) -> Option<SessionId> {
        let desk = self.desks.get(ticket.export() as usize)?;
        Some(SessionId {
            export: ticket.export(),
            number: desk.askers.of(ticket.number())?,
        })
    }

    /// Wakes who waits for the reply to a request that was performed: all sessions of its export, where it isn't known who asked.
    pub fn ring_asker(&self, ticket: &Ticket) {
        if let Some(session) = self.asker(ticket) {
            self.replies(session).ring();
        } else if let Some(desk) = self.desks.get(ticket.export() as usize) {
            for bell in &desk.replies {
                bell.ring();
            }
        }
    }
}

impl Desk {
    fn new(
        alloc: Global,
        export: &ExportConfig<Global>,
        inflight: usize,
    ) -> Result<Desk, NoMemory> {
        let mut replies = Vec::new(alloc);
        for _ in 0..SESSION_BELLS {
            replies.push(Bell::new())?;
        }
        let askers = Askers::new(alloc, export.depth().saturating_add(inflight))?;
        Ok(Desk { replies, askers })
    }

    fn replies(&self, session: u64) -> Option<&Bell> {
        self.replies.get(bell_of(session))
    }
}
