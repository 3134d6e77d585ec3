//! What the threads of a session share: the session, its bells, and where its replies go out.

use crate::outlet::{FlushOutcome, Outlet};
use crate::read_ahead::ReadAhead;
use crate::ready_replies::ReadyReplies;
use crate::rules::waits_for_retune;
use crate::under_way::BytesUnderWay;
use nbd_base::NoMemory;
use nbd_policy::{Load, RequestSize, patience};
use nbd_threads::{InteractiveLoad, RetuneGate, Traffic, TurnSeat, has_input};
use nbd_workers::Bell;
use server_core::SessionId;
use std::alloc::Global;
use std::net::TcpStream;
use std::sync::atomic::{AtomicBool, AtomicU64, Ordering};
use std::sync::{Mutex, Wait};
use std::time::Duration;

/// A session, and what its threads share.
#[derive(Drop)]
pub struct SessionLink<'a> {
    pub session: SessionId,
    pub peer: &'a TcpStream,
    /// Whoever has the server's lock as well took this one first, and nobody waits for this one under the server's.
    pub outlet: Mutex<Outlet<'a>>,
    /// Nobody waits for its lock under the server's.
    pub ready: ReadyReplies,
    /// Nobody waits for its lock under the server's.
    pub ahead: ReadAhead,
    /// Rung where the session has a reply, or has left.
    pub replies: &'a Bell,
    /// The interactive sessions.
    pub interactive: &'a InteractiveLoad,
    pub seat: &'a TurnSeat<'a>,
    pub bytes: &'a BytesUnderWay<'a>,
    /// Where its reader waits while other rates are asked for its export.
    pub gate: &'a RetuneGate,
    /// Rung where a reply was taken or written, and where the session is over.
    pub room: Bell,
    /// Whether its holds are long.
    bulk: AtomicBool,
    /// Whether the reader wrote replies and didn't send them.
    kept: AtomicBool,
    prefetched: AtomicU64,
}

impl<'a> SessionLink<'a> {
    /// What the threads of a session share that has nothing to do yet. Its reader's writes are those that aren't `patient`.
    pub fn new(
        alloc: Global,
        session: SessionId,
        peer: &'a TcpStream,
        patient: &'a AtomicBool,
        replies: &'a Bell,
        interactive: &'a InteractiveLoad,
        seat: &'a TurnSeat<'a>,
        bytes: &'a BytesUnderWay<'a>,
        gate: &'a RetuneGate,
        work: &'a Bell,
    ) -> Result<SessionLink<'a>, NoMemory> {
        let outlet = Outlet::new(alloc, peer, patient, interactive, bytes, seat, work)?;
        let ready = ReadyReplies::new(alloc)?;
        let ahead = ReadAhead::new(alloc)?;
        Ok(SessionLink {
            session,
            peer,
            outlet: Mutex::new(outlet),
            ready,
            ahead,
            replies,
            interactive,
            seat,
            bytes,
            gate,
            room: Bell::new(),
            bulk: AtomicBool::new(false),
            kept: AtomicBool::new(false),
            prefetched: AtomicU64::new(0),
        })
    }

    /// What prefetching came to. Nobody reads it: were it not kept, a compiler might leave the prefetching out.
    pub fn note_prefetched(&self, prefetched: u64) {
        if prefetched > 0 {
            self.prefetched.store(prefetched, Ordering::SeqCst);
        }
    }

    /// So many requests were handed in.
    pub fn note_arrived(&self, count: u64) {
        if count > 0 {
            self.bytes
                .traffic
                .arrived
                .fetch_add(count, Ordering::SeqCst);
        }
    }

    /// Whether more has come behind a request of this size that was read, where it is looked for that.
    pub fn has_more_behind<R: Wait>(&self, rt: &R, size: RequestSize) -> bool {
        self.seat.looks_behind(size) && (self.ahead.has_more(rt) || has_input(self.peer))
    }

    /// Notes how much the session asks for.
    pub fn note_load(&self, load: Load) {
        let bulk = load == Load::Bulk;
        if self.is_bulk() != bulk {
            self.bulk.store(bulk, Ordering::SeqCst);
        }
    }

    /// Whether the reader keeps what it wrote: its next bytes are there already, and it won't wait for its turn.
    pub fn keeps_replies<R: Wait>(&self, rt: &R, outlet: &Outlet<'_>) -> bool {
        let keeps = outlet.may_keep() && self.ahead.has_more(rt) && self.seat.is_alone();
        if keeps {
            self.kept.store(true, Ordering::SeqCst);
        }
        keeps
    }

    /// Sends the replies that the reader kept, where the writer isn't about to.
    pub fn send_kept(&self) {
        if self.kept.load(Ordering::SeqCst) {
            self.kept.store(false, Ordering::SeqCst);
            let Some(mut outlet) = self.outlet.try_lock() else {
                return;
            };
            // Where it failed the connection is over, and the socket tells the reader so.
            if outlet.send_briefly() == FlushOutcome::Part {
                self.replies.ring();
            }
        }
    }

    /// Whether it is a bulk session, as noted last.
    pub fn is_bulk(&self) -> bool {
        self.bulk.load(Ordering::SeqCst)
    }

    /// So many replies were taken.
    pub fn note_taken(&self, count: usize) {
        if count > 0 {
            self.bytes
                .traffic
                .taken
                .fetch_add(count as u64, Ordering::SeqCst);
            self.room.ring();
        }
    }

    /// Where nothing is under way and all replies are written, nothing counts any more. Whoever asks has locked the outlet.
    pub fn settle_bytes<R: Wait>(&self, rt: &R, outlet: &Outlet<'_>) {
        let noted = self.bytes.noted();
        if self.under_way() == 0 && outlet.unwritten() == 0 && self.ready.is_empty(rt) {
            self.bytes.settle(noted);
        }
    }

    /// Whether the reader hands nothing in for now, since other rates are asked for its export.
    pub fn waits_for_retune(&self) -> bool {
        waits_for_retune(self.gate.is_shut(), self.bytes.is_over())
    }

    /// How long the writer sleeps without a ring: without end where nothing is under way.
    pub fn patience(&self) -> Option<Duration> {
        patience(self.under_way())
    }

    /// How many requests were handed in whose replies weren't taken.
    pub fn under_way(&self) -> u64 {
        self.traffic().under_way()
    }

    /// What the session did and has at hand.
    pub fn traffic(&self) -> &Traffic {
        self.bytes.traffic
    }
}
