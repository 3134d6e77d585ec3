//! How many bytes of a session's requests are under way.

use nbd_policy::{SESSION_BYTES, data_of, holds_back};
use nbd_service::BusyWriters;
use nbd_threads::Traffic;
use nbd_wire::RequestHead;
use nbd_wire::protocol::WRITE;
use std::sync::atomic::{AtomicBool, AtomicU64, Ordering};

/// The bytes that a hold handed in.
#[derive(Clone, Copy, Debug, PartialEq, Eq, Drop)]
pub struct Admitted {
    /// Data that READs ask for, and data of WRITEs that weren't performed under the hold.
    pub bytes: u64,
    /// Of these, what WRITEs carry.
    pub waiting: u64,
}

impl Admitted {
    pub const NOTHING: Admitted = Admitted {
        bytes: 0,
        waiting: 0,
    };

    /// One more request, which was performed under its hold or not.
    pub fn with(self, head: RequestHead, performed: bool) -> Admitted {
        let data = data_of(head);
        let writes = head.kind == WRITE;
        let waiting = if writes && !performed { data } else { 0 };
        let bytes = if writes { waiting } else { data };
        Admitted {
            bytes: self.bytes.saturating_add(bytes),
            waiting: self.waiting.saturating_add(waiting),
        }
    }
}

/// How many bytes of a session's requests are under way (`Traffic::bytes`), and how many of its export's WRITEs wait.
#[derive(Drop)]
pub struct BytesUnderWay<'a> {
    pub(crate) traffic: &'a Traffic,
    waiting: AtomicU64,
    // Of all sessions of the export.
    all_waiting: &'a AtomicU64,
    // Whether the session is over, and whether its client hasn't read for a while what was sent.
    over: AtomicBool,
    unread: AtomicBool,
    writers: &'a BusyWriters,
}

impl<'a> BytesUnderWay<'a> {
    /// Of a session that asked for nothing yet: its traffic, all WRITEs of its export that wait, and the writers at work, of which its own
    /// is one.
    pub fn new(
        all_waiting: &'a AtomicU64,
        traffic: &'a Traffic,
        writers: &'a BusyWriters,
    ) -> BytesUnderWay<'a> {
        BytesUnderWay {
            traffic,
            waiting: AtomicU64::new(0),
            all_waiting,
            over: AtomicBool::new(false),
            unread: AtomicBool::new(false),
            writers,
        }
    }

    /// A hold handed this in.
    pub fn add(&self, admitted: Admitted) {
        if admitted.bytes > 0 {
            self.traffic
                .bytes
                .fetch_add(admitted.bytes, Ordering::SeqCst);
        }
        if admitted.waiting > 0 {
            self.waiting.fetch_add(admitted.waiting, Ordering::SeqCst);
            self.all_waiting
                .fetch_add(admitted.waiting, Ordering::SeqCst);
        }
    }

    /// So many bytes of data were written to the client.
    pub fn note_written(&self, bytes: u64) {
        if bytes > 0 {
            self.traffic.bytes.fetch_sub(bytes, Ordering::SeqCst);
        }
    }

    /// What counts now.
    pub fn noted(&self) -> Admitted {
        Admitted {
            bytes: self.traffic.bytes.load(Ordering::SeqCst),
            waiting: self.waiting.load(Ordering::SeqCst),
        }
    }

    /// Nothing was under way after this was noted: it doesn't count any more, the data of requests that were answered with an error
    /// among it. What was handed in meanwhile counts.
    pub fn settle(&self, noted: Admitted) {
        self.note_written(noted.bytes);
        if noted.waiting > 0 {
            self.waiting.fetch_sub(noted.waiting, Ordering::SeqCst);
            self.all_waiting.fetch_sub(noted.waiting, Ordering::SeqCst);
        }
    }

    /// The session is over: nothing of it counts any more, but for its WRITEs that may wait still. Tells how many bytes these have.
    pub fn leave(&self) -> u64 {
        let noted = self.noted();
        self.note_written(noted.bytes);
        self.waiting.fetch_sub(noted.waiting, Ordering::SeqCst);
        noted.waiting
    }

    /// Whether the reader hands in no more for now, with so many requests under way: no WRITE either with none, where too many bytes
    /// of its export's WRITEs wait.
    pub fn holds_back(&self, requests: u64, writes: bool) -> bool {
        let bytes = self.traffic.bytes.load(Ordering::SeqCst);
        let waiting = self.all_waiting.load(Ordering::SeqCst);
        let full = holds_back(requests, bytes, waiting) || writes && holds_back(1, 0, waiting);
        full && !self.is_over()
    }

    /// Whether a hold that handed this in hands in no more.
    pub fn ends_batch(&self, admitted: Admitted) -> bool {
        let bytes = self.traffic.bytes.load(Ordering::SeqCst);
        bytes.saturating_add(admitted.bytes) > SESSION_BYTES
    }

    /// The client reads what is sent, or doesn't: then the session's writer isn't at work.
    pub fn note_unread(&self, unread: bool) {
        if self.is_unread() == unread {
            return;
        }
        self.unread.store(unread, Ordering::SeqCst);
        if unread {
            self.writers.end();
        } else {
            self.writers.begin();
        }
    }

    /// Whether the client hasn't read for a while: the session's writer is kept from all else.
    pub fn is_unread(&self) -> bool {
        self.unread.load(Ordering::SeqCst)
    }

    /// Whether the session is over.
    pub fn is_over(&self) -> bool {
        self.over.load(Ordering::SeqCst)
    }

    /// The session is over: nobody waits for its client any more.
    pub fn end(&self) {
        self.over.store(true, Ordering::SeqCst);
    }
}
