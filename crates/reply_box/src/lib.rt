//! The sessions of one export, each with the replies that wait for it.
//!
//! A session is open from its attach until it leaves or is gone. Of the sessions that are gone nothing is kept but
//! that their numbers were used: 64 sessions at most are not gone at once, so the memory is bounded while numbers
//! rise without end.
//!
//! A session's outstanding requests are those that were admitted and whose reply was not yet taken: it is owed a
//! reply, or the reply waits in its outbox. They never exceed the window, and the outbox has room for a window's
//! replies from the attach on. So after [`ReplyBox::attach`] nothing takes memory.
#![tactic(auto)]

mod fault;
mod seat;

ghost use Rattle.std.specs.Prelude.{◌≡◌, ◌<◌, ◌^◌, length, IfOk, IfErr, false};
ghost use Rattle.reply_box.specs.Sessions.{is_open_at, is_quiet_at, state_at, sessions_worth};
ghost use Rattle.reply_box.specs.Box.{empty_box, is_full, attach_fault, after_attach, owed_at, MayAdmit, Admits, IsOwed, after_put, Takes, Leaves, Goes, IsInBounds};

use crate::seat::{Seat, put_behind};
use circular_buffer::HeapCircularBuffer;
pub use fault::{AdmitFault, AttachFault, NotOpen};
use nbd_wire::Reply;
pub use seat::{SessionState, Taken};
use std::alloc::Allocator;
use std::collections::BTreeMap;
use std::marker::Model;

/// The most sessions that are not gone at once.
const MOST_SESSIONS: usize = 64;

/// The sessions of an export, by number from 0 in the order in which they were attached.
#[derive(Drop)]
pub struct ReplyBox<A: Allocator + Copy> {
    // The number of the next session.
    next: u64,
    // The sessions that are not gone.
    seats: BTreeMap<u64, Seat<A>, A>,
    window: usize,
    alloc: A,
}

impl<A: Allocator + Copy> Model for ReplyBox<A> {
    ghost use Rattle.reply_box.specs.Box.{Box};
    ghost use Rattle.reply_box.specs.Seats.{box_of, IsBox};

    ghost Value = { Box };

    ghost view = { λ b. box_of b.next b.seats b.window };

    ghost invariant = { λ b. IsBox b.next b.seats b.window };
}

impl<A: Allocator + Copy> ReplyBox<A> {
    /// A box without sessions, in which each will have at most `window` outstanding requests.
    pub fn new(alloc: A, window: usize) -> Self
        ensures { result ≡ empty_box window }
    {
        ReplyBox {
            next: 0,
            seats: BTreeMap::new(alloc),
            window,
            alloc,
        }
    }

    /// The number that the next session gets, which is how many were ever attached.
    pub fn next_session(&self) -> u64
        ensures { result ≡ length self.now.sessions }
    {
        self.next
    }

    /// Whether as many sessions as may be are not gone, so that `attach` answers [`AttachFault::Full`].
    pub fn is_full(&self) -> bool
        ensures { result ≡ is_full self.now }
    {
        self.seats.len() == MOST_SESSIONS
    }

    /// Whether the session is open, has left or is gone; None where it was never attached.
    pub fn state(&self, session: u64) -> Option<SessionState>
        ensures { result ≡ state_at self.now.sessions session }
    {
        if session >= self.next {
            return None;
        }
        let Some(seat) = self.seats.get(&session) else {
            return Some(SessionState::Gone);
        };
        Some(seat.state())
    }

    /// Whether the session is open.
    pub fn is_open(&self, session: u64) -> bool
        ensures { result ≡ is_open_at self.now.sessions session }
    {
        let Some(seat) = self.seats.get(&session) else {
            return false;
        };
        !seat.left
    }

    /// Whether the session isn't gone and none of its replies waits, so that the next one that is put is the next one that
    /// is taken.
    pub fn is_quiet(&self, session: u64) -> bool
        ensures { result ≡ is_quiet_at self.now.sessions session }
    {
        let Some(seat) = self.seats.get(&session) else {
            return false;
        };
        seat.outbox.is_empty()
    }

    /// How many of the session's requests are admitted and not yet answered by `put`; 0 where it is gone.
    pub fn owed(&self, session: u64) -> usize
        ensures { result ≡ owed_at self.now.owed session }
    {
        let Some(seat) = self.seats.get(&session) else {
            return 0;
        };
        seat.owed
    }

    /// How many steps the sessions can still make at the most, with what waits for them now: each reply can be taken,
    /// an open session can leave, and one that isn't gone can be gone.
    pub fn steps_to_come(&self) -> u64
        requires { self.now.window < 2 ^ 32 }
        ensures { result ≡ sessions_worth self.now.sessions }
    {
        let mut steps = 0;
        for seat in self.seats.values() {
            steps += seat.steps_to_come();
        }
        steps
    }

    /// What `admit` answers.
    pub fn may_admit(&self, session: u64) -> Result<(), AdmitFault>
        ensures { MayAdmit self.now session result }
    {
        let Some(seat) = self.seats.get(&session) else {
            return Err(AdmitFault::NotOpen);
        };
        if seat.left {
            return Err(AdmitFault::NotOpen);
        }
        if seat.owed + seat.outbox.len() == self.window {
            Err(AdmitFault::Hold)
        } else {
            Ok(())
        }
    }

    /// Opens a session and gives its number. Its outbox gets room for a window's replies. The condition is that fewer
    /// than 2^63 sessions were opened before.
    pub fn attach(&mut self) -> Result<u64, AttachFault>
        requires { length self.old.sessions < 2 ^ 63 }
        ensures ok { IfOk result (λ n. (is_full self.old ≡ false) × (n ≡ length self.old.sessions)
            × (self.new ≡ after_attach self.old)) }
        ensures err { IfErr result (λ e. (e ≡ attach_fault self.old) × (self.new ≡ self.old)) }
    {
        if self.is_full() {
            return Err(AttachFault::Full);
        }
        let Ok(outbox) = HeapCircularBuffer::with_capacity(self.alloc, self.window) else {
            return Err(AttachFault::NoMemory);
        };
        let number = self.next;
        let seat = Seat {
            left: false,
            owed: 0,
            outbox,
        };
        if let Err(_back) = self.seats.insert(number, seat) {
            return Err(AttachFault::NoMemory);
        }
        self.next += 1;
        Ok(number)
    }

    /// A request of the session is outstanding from now on: the session is owed a reply.
    pub fn admit(&mut self, session: u64) -> Result<(), AdmitFault>
        ensures { Admits self.old session self.new result }
    {
        if let Err(refused) = self.may_admit(session) {
            return Err(refused);
        }
        let Some(seat) = self.seats.get_mut(&session) else {
            return Err(AdmitFault::NotOpen);
        };
        seat.owed += 1;
        Ok(())
    }

    /// Puts a reply that the session is owed behind the others of its outbox, or drops it where the session is gone.
    pub fn put(&mut self, session: u64, reply: Reply<A>)
        requires { IsOwed self.old session }
        ensures { self.new ≡ after_put self.old session reply }
    {
        let Some(seat) = self.seats.get_mut(&session) else {
            return;
        };
        seat.owed -= 1;
        put_behind(&mut seat.outbox, reply);
    }

    /// Takes the session's oldest reply.
    pub fn take(&mut self, session: u64) -> Result<Taken<A>, NotOpen>
        ensures { Takes self.old session self.new result }
    {
        let Some(seat) = self.seats.get_mut(&session) else {
            return Err(NotOpen);
        };
        let Some(reply) = seat.outbox.pop_front() else {
            return Ok(seat.quiet());
        };
        Ok(Taken::Reply(reply))
    }

    /// The open session sends no more requests. Its replies can still be taken.
    pub fn leave(&mut self, session: u64) -> Result<(), NotOpen>
        ensures { Leaves self.old session self.new result }
    {
        if !self.is_open(session) {
            return Err(NotOpen);
        }
        let Some(seat) = self.seats.get_mut(&session) else {
            return Err(NotOpen);
        };
        seat.left = true;
        Ok(())
    }

    /// Drops a session that is not gone, with its outbox. What it is owed is dropped when it is put.
    pub fn gone(&mut self, session: u64) -> Result<(), NotOpen>
        ensures { Goes self.old session self.new result }
    {
        let Some(_seat) = self.seats.remove(&session) else {
            return Err(NotOpen);
        };
        Ok(())
    }

    /// Does nothing: its contract says what is true of every box.
    ///
    /// No session has more outstanding than the window, one that is gone is owed nothing and has no replies, and 64
    /// at most are not gone.
    pub fn laws(&self)
        ensures { IsInBounds self.now }
    {
        let _ = &self.window;
    }
}
