//! A client's socket, as replies go out to it.

use crate::under_way::BytesUnderWay;
use nbd_policy::{MUCH_WRITTEN_BYTES, is_stalled, sent_at_once};
use nbd_threads::{InteractiveLoad, TurnSeat};
use nbd_workers::Bell;
use std::io;
use std::io::{ErrorKind, Write};
use std::net::TcpStream;
use std::sync::atomic::{AtomicBool, Ordering};

/// A client's socket, whose write timeout says how long a write waits for a client that doesn't read.
#[derive(Clone, Copy, Drop)]
pub struct Port<'a> {
    peer: &'a TcpStream,
    // Whether a write that waited so long goes on.
    patient: &'a AtomicBool,
    interactive: &'a InteractiveLoad,
    under_way: &'a BytesUnderWay<'a>,
    // Nobody waits for a session whose client doesn't read.
    seat: &'a TurnSeat<'a>,
    // Rung where the client doesn't read, so that the workers choose what its writer would have chosen.
    work: &'a Bell,
}

impl<'a> Port<'a> {
    pub fn new(
        peer: &'a TcpStream,
        patient: &'a AtomicBool,
        interactive: &'a InteractiveLoad,
        under_way: &'a BytesUnderWay<'a>,
        seat: &'a TurnSeat<'a>,
        work: &'a Bell,
    ) -> Port<'a> {
        Port {
            peer,
            patient,
            interactive,
            under_way,
            seat,
            work,
        }
    }

    /// Whether a write that waited for a client that doesn't read goes on.
    pub fn is_patient(&self) -> bool {
        self.patient.load(Ordering::SeqCst)
    }
}

impl Write for Port<'_> {
    fn write(&mut self, buf: &[u8]) -> io::Result<usize> {
        let mut peer = self.peer;
        let count = sent_at_once(buf.len(), self.interactive.is_expected());
        for waits in 1..u64::MAX {
            match peer.write(&buf[..count]) {
                // A process that was stopped goes on.
                Err(error) if error.kind() == ErrorKind::Interrupted => {}
                Err(error) if self.is_patient() && is_timeout(&error) && !is_stalled(waits) => {
                    self.under_way.note_unread(true);
                    self.seat.leave_later();
                    self.work.ring_one();
                }
                written => {
                    self.under_way.note_unread(false);
                    self.interactive.rest_behind(&written, MUCH_WRITTEN_BYTES);
                    return written;
                }
            }
        }
        Ok(0)
    }

    fn flush(&mut self) -> io::Result<()> {
        Ok(())
    }
}

/// Whether a write failed since the client didn't read in time.
pub fn is_timeout(error: &io::Error) -> bool {
    error.kind() == ErrorKind::WouldBlock
}
