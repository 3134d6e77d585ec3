//! What a session's thread does for all sessions while it has the lock, and whom it wakes afterwards.

use crate::bells::Bells;
use crate::service::Disks;
use nbd_base::NoMemory;
use nbd_policy::{NOTED_SESSIONS, PERFORMED_FOR_ONE};
use server_core::{SessionId, Ticket};
use server_lock::{Pass, turn_dispatch, turn_perform};
use std::alloc::Global;
use std::sync::ledger::Ledger;
use tag_clock::Clock;

/// A request that a session has just handed in, and for which nobody is noted as its asker.
#[derive(Clone, Copy, Debug, PartialEq, Eq, Drop)]
pub struct Asked {
    pub session: SessionId,
    pub number: u64,
}

impl Asked {
    fn is(&self, ticket: &Ticket) -> bool {
        ticket.export() == self.session.export && ticket.number() == self.number
    }
}

/// The sessions that a thread wakes once it has given the lock back.
#[derive(Drop)]
pub struct Wakeups {
    // Other sessions than the thread's own, whose requests were performed.
    others: Vec<SessionId, Global>,
    performed: bool,
}

impl Wakeups {
    pub fn new(alloc: Global) -> Result<Wakeups, NoMemory> {
        Ok(Wakeups {
            others: Vec::with_capacity(alloc, NOTED_SESSIONS)?,
            performed: false,
        })
    }

    /// Chooses a request and performs it, whoever asked for it, where there is one to choose. Tells whether it was one of the
    /// session's own.
    pub fn serve_one<L: Ledger, C: Clock>(
        &mut self,
        disks: &mut Disks<L>,
        bells: &Bells,
        pass: &mut Pass<L>,
        session: SessionId,
        clock: &C,
    ) -> bool {
        match perform_next(disks, pass, clock) {
            Some(ticket) => self.note(bells, session, &ticket),
            None => false,
        }
    }

    /// Performs requests until this request of the session is performed, or an earlier one of it, or two in all. Tells whether its
    /// own was.
    pub fn serve_own<L: Ledger, C: Clock>(
        &mut self,
        disks: &mut Disks<L>,
        bells: &Bells,
        pass: &mut Pass<L>,
        own: Asked,
        clock: &C,
    ) -> bool {
        for _ in 0..PERFORMED_FOR_ONE {
            let Some(ticket) = perform_next(disks, pass, clock) else {
                return false;
            };
            if own.is(&ticket) {
                self.performed = true;
                return true;
            }
            if self.note(bells, own.session, &ticket) {
                return false;
            }
        }
        false
    }

    /// Whether a request of another session was performed under this hold.
    pub fn served_others(&self) -> bool {
        !self.others.is_empty()
    }

    /// A request was performed. Tells whether the session itself asked for it.
    fn note(&mut self, bells: &Bells, session: SessionId, ticket: &Ticket) -> bool {
        self.performed = true;
        let Some(asker) = bells.asker(ticket) else {
            bells.ring_asker(ticket);
            return false;
        };
        if asker == session {
            return true;
        }
        if self.others.len() < self.others.capacity() {
            self.others.push_reserved(asker);
        } else {
            bells.replies(asker).ring();
        }
        false
    }

    /// Wakes who waits for what was performed, once the lock was given back. Tells whether anything was performed.
    pub fn wake(&mut self, bells: &Bells) -> bool {
        let performed = self.performed;
        if performed {
            bells.make_way();
        }
        for session in self.others.as_slice() {
            bells.replies(*session).ring();
        }
        self.others.clear();
        self.performed = false;
        performed
    }
}

/// Chooses a request and performs it, whoever asked for it.
fn perform_next<L: Ledger, C: Clock>(
    disks: &mut Disks<L>,
    pass: &mut Pass<L>,
    clock: &C,
) -> Option<Ticket> {
    let ticket = turn_dispatch(disks, pass, clock.now())?.ticket;
    turn_perform(disks, pass, ticket);
    Some(ticket)
}
