//! Where threads that have served a client wait for the next one.

use nbd_base::NoMemory;
use nbd_connection::Entered;
use nbd_policy::IDLE_THREADS;
use nbd_workers::Bell;
use std::alloc::Global;
use std::net::TcpStream;
use std::sync::ledger::Ledger;
use std::sync::{Mutex, Wait};

/// Who is served next.
#[derive(Drop)]
pub enum Guest<L: Ledger> {
    /// A client that has just connected.
    New(TcpStream),
    /// One that has chosen its export.
    Entered(Entered<L>),
}

/// The threads of one listener's connections that wait for a client. The C library keeps memory apart for each thread, and a block goes
/// back to where it came from. So a client is served by a thread that served its export last, where one waits: what its WRITEs
/// replace it uses again. A thread that has served none makes the handshake.
#[derive(Drop)]
pub struct IdleThreads<L: Ledger> {
    bells: Vec<Bell, Global>,
    seats: Mutex<Seats<Guest<L>>>,
}

impl<L: Ledger> IdleThreads<L> {
    pub fn new(alloc: Global) -> Result<IdleThreads<L>, NoMemory> {
        let mut bells = Vec::with_capacity(alloc, IDLE_THREADS)?;
        for _ in 0..IDLE_THREADS {
            bells.push(Bell::new())?;
        }
        Ok(IdleThreads {
            bells,
            seats: Mutex::new(Seats::new(alloc)?),
        })
    }

    /// Hands a guest to a thread that waits and served this export last, or none. Where there is no such thread the guest is handed back.
    pub fn hand_over<R: Wait>(
        &self,
        rt: &R,
        guest: Guest<L>,
        served: Option<u32>,
    ) -> Result<(), Guest<L>> {
        let seat = self.seats.lock(rt).call(guest, served)?;
        if let Some(bell) = self.bells.get(seat) {
            bell.ring();
        }
        Ok(())
    }

    /// Waits for a guest, as a thread that served this export last, or none. None where there is no seat, or no more guests come.
    pub fn wait<R: Wait>(&self, rt: &R, served: Option<u32>) -> Option<Guest<L>> {
        let seat = self.seats.lock(rt).sit(served)?;
        let bell = self.bells.get(seat)?;
        for _ in rt.forever() {
            let heard = bell.heard();
            match self.seats.lock(rt).look(seat) {
                Found::Guest(guest) => return Some(guest),
                Found::Closed => return None,
                Found::Nothing => {}
            }
            bell.wait(rt, heard, None);
        }
        unreachable!()
    }

    /// No more guests come: whoever waits is told.
    pub fn close<R: Wait>(&self, rt: &R) {
        self.seats.lock(rt).close();
        for bell in self.bells.as_slice() {
            bell.ring();
        }
    }
}

/// Where threads wait for guests of a kind. There is room for all in each list.
#[derive(Drop)]
pub(super) struct Seats<G: Drop> {
    // Who was called to each seat, and isn't gone from there.
    guests: Vec<Option<G>, Global>,
    // The seats that nobody has.
    empty: Vec<usize, Global>,
    // Those whose threads wait and weren't called, the latest last.
    waiting: Vec<Waiter, Global>,
    closed: bool,
}

/// A thread that waits on a seat, and the export that it served last.
#[derive(Clone, Copy, Debug, PartialEq, Eq, Drop)]
struct Waiter {
    seat: usize,
    served: Option<u32>,
}

/// What a thread finds on its seat.
#[derive(Drop)]
pub(super) enum Found<G: Drop> {
    Guest(G),
    Nothing,
    Closed,
}

impl<G: Drop> Seats<G> {
    pub(super) fn new(alloc: Global) -> Result<Seats<G>, NoMemory> {
        let mut guests = Vec::with_capacity(alloc, IDLE_THREADS)?;
        let mut empty = Vec::with_capacity(alloc, IDLE_THREADS)?;
        for seat in 0..IDLE_THREADS {
            guests.push(None)?;
            empty.push(seat)?;
        }
        Ok(Seats {
            guests,
            empty,
            waiting: Vec::with_capacity(alloc, IDLE_THREADS)?,
            closed: false,
        })
    }

    /// A thread takes a seat, which served this export last. None where there is none, or these are closed.
    pub(super) fn sit(&mut self, served: Option<u32>) -> Option<usize> {
        if self.closed || self.waiting.len() >= self.waiting.capacity() {
            return None;
        }
        let seat = self.empty.pop()?;
        self.waiting.push_reserved(Waiter { seat, served });
        Some(seat)
    }

    /// Calls a guest to the seat of the thread that came latest of those that served this export last. Once these are closed nobody is
    /// called, so that no guest is left on a seat whose thread has gone.
    pub(super) fn call(&mut self, guest: G, served: Option<u32>) -> Result<usize, G> {
        let Some(seat) = self.take_waiter(served) else {
            return Err(guest);
        };
        match self.guests.get_mut(seat) {
            Some(place) => {
                *place = Some(guest);
                Ok(seat)
            }
            None => Err(guest),
        }
    }

    /// The seat of the thread that is to be called, which doesn't wait any more.
    fn take_waiter(&mut self, served: Option<u32>) -> Option<usize> {
        if self.closed {
            return None;
        }
        let at = self
            .waiting
            .iter()
            .rposition(|waiter| waiter.served == served)?;
        if at >= self.waiting.len() {
            return None;
        }
        Some(self.waiting.remove(at).seat)
    }

    /// What the thread on this seat finds there. With a guest it leaves the seat.
    pub(super) fn look(&mut self, seat: usize) -> Found<G> {
        let guest = match self.guests.get_mut(seat) {
            Some(place) => place.take(),
            None => None,
        };
        match guest {
            Some(guest) => {
                if self.empty.len() < self.empty.capacity() {
                    self.empty.push_reserved(seat);
                }
                Found::Guest(guest)
            }
            None if self.closed => Found::Closed,
            None => Found::Nothing,
        }
    }

    /// Nobody is called any more.
    pub(super) fn close(&mut self) {
        self.closed = true;
    }
}
