//! A gate that sleeps.
ghost use Rattle.std.specs.Prelude.{◌≡◌, ◌-◌};
ghost use Rattle.std.specs.Duration.{as_nanos};

use crate::bell::Bell;
use crate::worker::Gate;
use server_core::Ticket;
use std::cell::Cell;
use std::sync::Wait;
use std::time::Duration;
use tag_clock::{Clock, Moment};

/// One worker's gate, which holds up no request. Where there is nothing to do it sleeps until something is due, and
/// without end where nothing is. A bell ends the sleep, which is to be rung after each arrival and the stop; it rings
/// another bell once a request was performed.
#[derive(Drop)]
pub struct Sleeper<'a, C: Clock, R: Wait> {
    rt: &'a R,
    clock: &'a C,
    work: &'a Bell,
    replies: &'a Bell,
    // How often the bell had rung just before the latest dispatch.
    heard: Cell<u64>,
}

impl<'a, C: Clock, R: Wait> Sleeper<'a, C, R> {
    /// A gate that sleeps on the first bell, and rings the second.
    pub fn new(rt: &'a R, clock: &'a C, work: &'a Bell, replies: &'a Bell) -> Sleeper<'a, C, R> {
        Sleeper {
            rt,
            clock,
            work,
            replies,
            heard: Cell::new(0),
        }
    }
}

/// How long it is until a moment: no time where it has come.
pub fn until(now: Moment, due: Moment) -> Duration
    ensures { as_nanos result ≡ due - now }
{
    Duration::from_nanos(due.nanoseconds().saturating_sub(now.nanoseconds()))
}

impl<'a, C: Clock, R: Wait> Clock for Sleeper<'a, C, R> {
    fn now(&self) -> Moment {
        self.heard.set(self.work.heard());
        self.clock.now()
    }
}

impl<'a, C: Clock, R: Wait> Gate for Sleeper<'a, C, R> {
    fn pass(&self, _ticket: &Ticket) {}

    fn done(&self, _ticket: &Ticket) {
        self.replies.ring();
    }

    fn idle(&self, due: Option<Moment>) -> bool {
        let at_most = due.map(|due| until(self.clock.now(), due));
        self.work.wait(self.rt, self.heard.get(), at_most);
        true
    }
}
