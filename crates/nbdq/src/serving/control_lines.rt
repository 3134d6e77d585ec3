//! The lines that a client of the control socket sends, and the answers that it takes.

use super::control::ControlSocket;
use nbd_base::NoMemory;
use nbd_control::MAX_LINE;
use nbd_policy::{CONTROL_LOOK_MS, still_waits_for_line};
use std::alloc::Global;
use std::io::{ErrorKind, Read, Write};
use std::net::TcpStream;
use std::sync::Wait;
use std::time::Duration;
use std::{io, time};
use tag_clock::Clock;

/// The lines of a client, one after another. Of a line that is too long the bytes behind are lost.
#[derive(Drop)]
pub struct Lines<'a> {
    peer: &'a TcpStream,
    line: Vec<u8>,
    // What was read, and how far it was used.
    chunk: [u8; 512],
    at: usize,
    count: usize,
}

impl<'a> Lines<'a> {
    pub fn new(alloc: Global, peer: &'a TcpStream) -> Result<Lines<'a>, NoMemory> {
        let look = Some(Duration::from_millis(CONTROL_LOOK_MS));
        let _ = peer.set_read_timeout(look);
        let _ = peer.set_write_timeout(look);
        Ok(Lines {
            peer,
            line: Vec::with_capacity(alloc, MAX_LINE + 1)?,
            chunk: [0; 512],
            at: 0,
            count: 0,
        })
    }

    /// The latest line, without its line feed.
    pub fn line(&self) -> &[u8] {
        self.line.as_slice()
    }

    /// Reads the next line. False where the client sends none in time, or none any more, or the server is at its end.
    pub fn next<R: Wait + time::Clock, C: Clock>(
        &mut self,
        rt: &R,
        control: &ControlSocket,
        clock: &C,
    ) -> bool {
        self.line.clear();
        let began = clock.now().nanoseconds();
        for _ in rt.forever() {
            if self.take_line() {
                return true;
            }
            let passed = clock.now().nanoseconds().saturating_sub(began);
            if !still_waits_for_line(passed) || control.is_ended() || !self.fill() {
                return false;
            }
        }
        unreachable!()
    }

    /// Sends the answer to the latest line. False where the client doesn't take it in time, or is gone, or the server is at
    /// its end while it waits for the client.
    pub fn send<R: Wait + time::Clock, C: Clock>(
        &self,
        rt: &R,
        control: &ControlSocket,
        clock: &C,
        answer: &[u8],
    ) -> bool {
        let mut peer = self.peer;
        let mut rest = answer;
        let began = clock.now().nanoseconds();
        for _ in rt.forever() {
            if rest.is_empty() {
                return true;
            }
            let passed = clock.now().nanoseconds().saturating_sub(began);
            if !still_waits_for_line(passed) {
                return false;
            }
            match peer.write(rest) {
                Ok(0) => return false,
                Ok(count) => rest = rest.get(count..).unwrap_or(b""),
                Err(error) if is_timeout(&error) && !control.is_ended() => {}
                Err(_) => return false,
            }
        }
        unreachable!()
    }

    /// Takes what was read, up to a line feed. Tells whether there was one.
    fn take_line(&mut self) -> bool {
        for at in self.at..self.count {
            let byte = self.chunk.get(at).copied().unwrap_or(b'\n');
            self.at = at.saturating_add(1);
            if byte == b'\n' {
                return true;
            }
            if self.line.len() < self.line.capacity() {
                self.line.push_reserved(byte);
            }
        }
        false
    }

    /// Reads what has come, for which it waits a little. False where nothing comes any more.
    fn fill(&mut self) -> bool {
        let mut peer = self.peer;
        self.at = 0;
        self.count = 0;
        match peer.read(&mut self.chunk) {
            Ok(count) => {
                self.count = count;
                count > 0
            }
            Err(error) => is_timeout(&error),
        }
    }
}

/// Whether a read or a write ended since nothing came or went for a while: something may still.
fn is_timeout(error: &io::Error) -> bool {
    match error.kind() {
        ErrorKind::WouldBlock | ErrorKind::TimedOut | ErrorKind::Interrupted => true,
        _ => false,
    }
}
