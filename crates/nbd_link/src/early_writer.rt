//! A buffer whose bytes go out before it is full.

use crate::port::{Port, is_timeout};
use nbd_policy::{goes_straight, sends_early};
use std::io;
use std::io::{BufWriter, ErrorKind, Write};

/// A buffer whose bytes go out once they are many, unless the client doesn't read: then it keeps them, as far as it has room, until a
/// patient write. So they are still in the cache of the processor that wrote them, and the next ones take their place there. A long text
/// goes straight out where it is empty: the data of a reply without pages stay with their head, as far as there is room.
#[derive(Drop)]
pub struct EarlyWriter<'a> {
    buffer: BufWriter<Port<'a>>,
    // Whether the client didn't read what was sent last in time.
    stuck: bool,
}

impl<'a> EarlyWriter<'a> {
    pub fn new(buffer: BufWriter<Port<'a>>) -> EarlyWriter<'a> {
        EarlyWriter {
            buffer,
            stuck: false,
        }
    }

    fn is_patient(&self) -> bool {
        self.buffer.get_ref().is_patient()
    }
}

impl Write for EarlyWriter<'_> {
    fn write(&mut self, buf: &[u8]) -> io::Result<usize> {
        let buffered = self.buffer.buffer().len();
        if buffered == 0 && goes_straight(buf.len(), self.is_patient()) {
            return self.buffer.get_mut().write(buf);
        }
        if sends_early(buffered, self.stuck) {
            match self.flush() {
                Err(error) if self.is_patient() || !is_timeout(&error) => return Err(error),
                _ => {}
            }
        }
        self.buffer.write(buf)
    }

    fn flush(&mut self) -> io::Result<()> {
        if self.stuck && !self.is_patient() {
            return Err(io::Error::from(ErrorKind::WouldBlock));
        }
        let flushed = self.buffer.flush();
        self.stuck = match &flushed {
            Ok(()) => false,
            Err(error) => is_timeout(error),
        };
        flushed
    }
}
