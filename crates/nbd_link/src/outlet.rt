//! Where a session's replies go out.

use crate::early_writer::EarlyWriter;
use crate::port::{Port, is_timeout};
use crate::under_way::BytesUnderWay;
use nbd_base::NoMemory;
use nbd_policy::{OUTLET_BYTES, TAKEN_REPLIES, WIDE_OUTLET_BYTES, may_keep, suits_reader};
use nbd_service::Disks;
use nbd_threads::{InteractiveLoad, TurnSeat};
use nbd_workers::Bell;
use server_core::SessionId;
use server_lock::Pass;
use session_turns::{ReadyReply, ReplyWriter, Stop};
use std::alloc::Global;
use std::io::BufWriter;
use std::mem;
use std::net::TcpStream;
use std::sync::atomic::{AtomicBool, Ordering};
use std::sync::ledger::Ledger;

/// Replies and the buffer that they are written to.
type Replies<'a> = ReplyWriter<EarlyWriter<'a>, Global>;

/// Where a session's replies go out.
#[derive(Drop)]
pub struct Outlet<'a> {
    // Those that were taken, and the buffer that they are written to.
    replies: Replies<'a>,
    // With a wide buffer where that isn't, or the other way round: nothing is taken or unsent there.
    other: Option<Replies<'a>>,
    is_wide: bool,
    alloc: Global,
    port: Port<'a>,
    patient: &'a AtomicBool,
    under_way: &'a BytesUnderWay<'a>,
    // How many were written since the writer sent last, and how many bytes they have at most.
    unsent: usize,
    bytes: usize,
    // Whether the reader has left some of them to the writer, since the client doesn't read.
    stuck: bool,
}

/// What came of sending without waiting long.
#[derive(Clone, Copy, Debug, PartialEq, Eq, Drop)]
pub enum FlushOutcome {
    All,
    /// The client doesn't read: the writer sends the rest.
    Part,
    /// The connection is over.
    Failed,
}

/// How many bytes a buffer has.
fn room_of(wide: bool) -> usize {
    if wide {
        WIDE_OUTLET_BYTES
    } else {
        OUTLET_BYTES
    }
}

fn replies_of<'a>(alloc: Global, port: Port<'a>, room: usize) -> Result<Replies<'a>, NoMemory> {
    match BufWriter::with_capacity(alloc, room, port) {
        Ok(buffer) => ReplyWriter::new(alloc, EarlyWriter::new(buffer), TAKEN_REPLIES),
        Err(_) => Err(NoMemory),
    }
}

impl<'a> Outlet<'a> {
    /// The writes of a reader are those that aren't `patient`.
    pub fn new(
        alloc: Global,
        peer: &'a TcpStream,
        patient: &'a AtomicBool,
        interactive: &'a InteractiveLoad,
        under_way: &'a BytesUnderWay<'a>,
        seat: &'a TurnSeat<'a>,
        work: &'a Bell,
    ) -> Result<Outlet<'a>, NoMemory> {
        let port = Port::new(peer, patient, interactive, under_way, seat, work);
        Ok(Outlet {
            replies: replies_of(alloc, port, OUTLET_BYTES)?,
            other: None,
            is_wide: false,
            alloc,
            port,
            patient,
            under_way,
            unsent: 0,
            bytes: 0,
            stuck: false,
        })
    }

    /// Makes room for what a reader is about to hand in: for the reply to a READ of long data that it answers, before which it sends
    /// what isn't sent, or for short replies. Where something stays taken or unsent, the room stays too.
    pub fn make_room(&mut self, answers: bool) {
        if answers && self.bytes > 0 && !self.stuck {
            let _ = self.send_briefly();
        }
        self.set_wide(answers);
    }

    /// The client waits for nothing: gives back the memory of the wide buffer.
    pub fn rest(&mut self) {
        self.set_wide(false);
        if !self.is_wide {
            self.other = None;
        }
    }

    /// Whether there is room for the reply to a READ of long data that the reader answers.
    pub fn is_wide(&self) -> bool {
        self.is_wide
    }

    fn set_wide(&mut self, wide: bool) {
        if self.is_wide == wide || self.bytes > 0 || self.unwritten() > 0 {
            return;
        }
        let other = match self.other.take() {
            Some(other) => other,
            None => match replies_of(self.alloc, self.port, room_of(wide)) {
                Ok(other) => other,
                Err(_) => return,
            },
        };
        self.other = Some(mem::replace(&mut self.replies, other));
        self.is_wide = wide;
    }

    /// How many replies were taken and aren't written.
    pub fn unwritten(&self) -> usize {
        self.replies.unwritten()
    }

    /// How many bytes the replies have that were taken and aren't written.
    pub fn taken_bytes(&self) -> u64 {
        self.replies.bytes() as u64
    }

    /// Whether more replies may be kept before they are sent.
    pub fn may_keep(&self) -> bool {
        may_keep(self.unsent)
    }

    /// Takes the session's replies, as many as are there and as there is room for.
    pub fn take<L: Ledger>(
        &mut self,
        disks: &mut Disks<L>,
        pass: &mut Pass<L>,
        session: SessionId,
    ) -> Stop {
        self.replies.take(disks, pass, session)
    }

    /// Takes the session's oldest reply, where there is one and room for it.
    pub fn take_one<L: Ledger>(
        &mut self,
        disks: &mut Disks<L>,
        pass: &mut Pass<L>,
        session: SessionId,
    ) {
        let _ = self.replies.take_one(disks, pass, session);
    }

    /// Whether the replies that were taken are short enough for a reader to write them: there is room for them beside those that
    /// weren't sent, so that nothing is sent before.
    pub fn is_brief(&self) -> bool {
        !self.stuck && suits_reader(self.replies.bytes(), self.bytes, room_of(self.is_wide))
    }

    /// Writes the replies that were taken. Where a write failed the connection is over.
    pub fn write(&mut self) -> bool {
        self.patient.store(true, Ordering::SeqCst);
        self.put_taken()
    }

    /// Sends what was ready, behind what was written. Where that failed the connection is over.
    pub fn send_ready(&mut self, ready: &ReadyReply<Global>) -> bool {
        self.patient.store(true, Ordering::SeqCst);
        let written = self.replies.write_ready(ready);
        self.under_way.note_written(ready.data() as u64);
        written.is_ok() && self.send()
    }

    /// Sends what was written, however long the client doesn't read. Where that failed the connection is over.
    pub fn send(&mut self) -> bool {
        self.patient.store(true, Ordering::SeqCst);
        self.flush() == FlushOutcome::All
    }

    /// Writes the replies that were taken, which are brief, and sends them where that is asked for, unless the client doesn't read.
    pub fn write_briefly(&mut self, sends: bool) -> FlushOutcome {
        self.patient.store(false, Ordering::SeqCst);
        if !self.put_taken() {
            return FlushOutcome::Failed;
        }
        if sends {
            self.send_briefly()
        } else {
            FlushOutcome::All
        }
    }

    /// Sends what was written, unless the client doesn't read.
    pub fn send_briefly(&mut self) -> FlushOutcome {
        self.patient.store(false, Ordering::SeqCst);
        self.flush()
    }

    fn put_taken(&mut self) -> bool {
        let count = self.replies.unwritten();
        let data = self.replies.data();
        let bytes = self.replies.bytes();
        if self.replies.write().is_err() {
            return false;
        }
        self.under_way.note_written(data as u64);
        self.unsent = self.unsent.saturating_add(count);
        self.bytes = self.bytes.saturating_add(bytes);
        true
    }

    fn flush(&mut self) -> FlushOutcome {
        match self.replies.send() {
            Ok(()) => {
                self.unsent = 0;
                self.bytes = 0;
                self.stuck = false;
                FlushOutcome::All
            }
            Err(error) if is_timeout(&error) => {
                self.stuck = true;
                FlushOutcome::Part
            }
            Err(_) => FlushOutcome::Failed,
        }
    }
}
