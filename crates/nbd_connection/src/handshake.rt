//! A client's socket during its handshake, for which it has so long and no longer.

use nbd_policy::handshake_wait_ms;
use std::cell::Cell;
use std::io::{ErrorKind, Read, Write};
use std::net::TcpStream;
use std::time::{Duration, Instant};
use std::{io, time};

/// How long a handshake has taken.
#[derive(Drop)]
pub struct HandshakeClock<'a, R: time::Clock> {
    rt: &'a R,
    // None where the system's clock couldn't be read: then nothing is too late.
    began: Option<Instant>,
    // How many milliseconds after that its latest option began.
    option_began: Cell<u64>,
}

impl<'a, R: time::Clock> HandshakeClock<'a, R> {
    /// The handshake begins now.
    pub fn new(rt: &'a R) -> HandshakeClock<'a, R> {
        HandshakeClock {
            rt,
            began: Instant::now(rt).ok(),
            option_began: Cell::new(0),
        }
    }

    fn passed_ms(&self) -> u64 {
        match &self.began {
            Some(began) => {
                let passed = began.elapsed(self.rt).unwrap_or(Duration::ZERO);
                passed.as_millis().min(u128::from(u64::MAX)) as u64
            }
            None => 0,
        }
    }

    /// How long the client has for its next bytes. None where its time is over.
    fn left(&self) -> Option<Duration> {
        let passed = self.passed_ms();
        let option = passed.saturating_sub(self.option_began.get());
        match handshake_wait_ms(passed, option) {
            0 => None,
            left => Some(Duration::from_millis(left)),
        }
    }

    /// An option was answered: the next one begins.
    fn note_answer(&self) {
        self.option_began.set(self.passed_ms());
    }
}

/// The socket of a client in its handshake. A read or a write that would take too long fails.
#[derive(Drop)]
pub struct HandshakeSocket<'a, R: time::Clock> {
    peer: &'a TcpStream,
    clock: &'a HandshakeClock<'a, R>,
}

impl<'a, R: time::Clock> HandshakeSocket<'a, R> {
    pub fn new(peer: &'a TcpStream, clock: &'a HandshakeClock<'a, R>) -> HandshakeSocket<'a, R> {
        HandshakeSocket { peer, clock }
    }
}

impl<R: time::Clock> Read for HandshakeSocket<'_, R> {
    fn read(&mut self, buf: &mut [u8]) -> io::Result<usize> {
        let mut peer = self.peer;
        for _ in 0..u64::MAX {
            let Some(left) = self.clock.left() else {
                break;
            };
            let _ = self.peer.set_read_timeout(Some(left));
            match peer.read(buf) {
                // A process that was stopped goes on.
                Err(error) if error.kind() == ErrorKind::Interrupted => {}
                came => return came,
            }
        }
        Err(io::Error::from(ErrorKind::TimedOut))
    }
}

impl<R: time::Clock> Write for HandshakeSocket<'_, R> {
    fn write(&mut self, buf: &[u8]) -> io::Result<usize> {
        let mut peer = self.peer;
        for _ in 0..u64::MAX {
            let Some(left) = self.clock.left() else {
                break;
            };
            let _ = self.peer.set_write_timeout(Some(left));
            match peer.write(buf) {
                // A process that was stopped goes on.
                Err(error) if error.kind() == ErrorKind::Interrupted => {}
                written => {
                    self.clock.note_answer();
                    return written;
                }
            }
        }
        Err(io::Error::from(ErrorKind::TimedOut))
    }

    fn flush(&mut self) -> io::Result<()> {
        Ok(())
    }
}
