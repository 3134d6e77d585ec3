//! The gate of a server's workers.

use crate::service::Service;
use nbd_policy::Rest;
use nbd_workers::{Gate, until};
use server_core::Ticket;
use std::cell::Cell;
use std::sync::Wait;
use std::sync::ledger::Ledger;
use std::time;
use tag_clock::{Clock, Moment};

/// A worker's gate. It holds up no request, wakes the session whose request was performed, and where there is nothing to do
/// sleeps until something is due, where no other worker does, or until the bell for work rings.
#[derive(Drop)]
pub struct WorkerGate<'a, L: Ledger, R: Wait + time::Clock> {
    rt: &'a R,
    service: &'a Service<L>,
    // How often the bell for work had rung just before the latest dispatch.
    heard: Cell<u64>,
}

impl<'a, L: Ledger, R: Wait + time::Clock> WorkerGate<'a, L, R> {
    /// The gate of a worker that begins, until `end`.
    pub fn new(rt: &'a R, service: &'a Service<L>) -> WorkerGate<'a, L, R> {
        service.bells.time.begin();
        WorkerGate {
            rt,
            service,
            heard: Cell::new(0),
        }
    }
}

impl<'a, L: Ledger, R: Wait + time::Clock> WorkerGate<'a, L, R> {
    /// Looks once more where something waits and nothing is due: from here on who performs a request rings.
    fn due_after_all(&self) -> Option<Moment> {
        if self.service.shared.waiting(self.rt) == 0 {
            return None;
        }
        self.service.bells.note_crowd();
        self.service.shared.next_due(self.rt)
    }

    /// Sleeps until a moment, and without end where there is none, but no longer than until the bell for work rings.
    fn sleep_until(&self, due: &Option<Moment>) {
        let at_most = match due {
            Some(due) => Some(until(self.service.clock(self.rt).now(), *due)),
            None => None,
        };
        self.service
            .bells
            .work
            .wait(self.rt, self.heard.get(), at_most);
    }

    /// The worker ends.
    pub fn end(self) {
        self.service.bells.time.end();
    }
}

impl<'a, L: Ledger, R: Wait + time::Clock> Clock for WorkerGate<'a, L, R> {
    fn now(&self) -> Moment {
        self.heard.set(self.service.bells.work.heard());
        self.service.bells.time.begin_look();
        self.service.clock(self.rt).now()
    }
}

impl<'a, L: Ledger, R: Wait + time::Clock> Gate for WorkerGate<'a, L, R> {
    fn pass(&self, _ticket: &Ticket) {}

    fn done(&self, ticket: &Ticket) {
        self.service.bells.ring_asker(ticket);
    }

    fn idle(&self, due: Option<Moment>) -> bool {
        let due = match due {
            Some(due) => Some(due),
            None => self.due_after_all(),
        };
        let time = &self.service.bells.time;
        match time.rest_until(&due) {
            Rest::No => return true,
            Rest::UntilDue => self.sleep_until(&due),
            Rest::UntilWoken => self.sleep_until(&None),
        }
        time.end_rest(&due);
        true
    }
}
