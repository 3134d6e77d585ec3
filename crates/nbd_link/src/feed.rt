//! Where the bytes of a connection come from: its socket, or what was read ahead.
ghost use Rattle.std.specs.Prelude.{◌≤◌, length, IfSome};
ghost use Rattle.std.specs.Io.{ReadsAtMost};

use crate::read_ahead::Piece;
use crate::session_link::SessionLink;
use nbd_base::NoMemory;
use nbd_policy::MUCH_READ_BYTES;
use nbd_stream::{Buffered, append_front};
use nbd_threads::SpinRead;
use payload::{Growing, Spares};
use std::alloc::Allocator;
use std::io::Read;
use std::sync::Wait;
use std::{io, time};

/// The most bytes of a long WRITE's payload that are read at once. Where there is room for more, the next bytes begin a request,
/// or go on with a short one.
const LONGEST_STRETCH: usize = 65_536;

/// The most bytes that a read gives of what was read ahead: a head and a page. What follows of a long WRITE goes into its pages
/// straight.
const FRONT: usize = 4_124;

/// Where the requests of a connection come from: what was read ahead, and else the socket.
#[derive(Drop)]
pub struct Feed<'a, 'b, R: Wait + time::Clock> {
    rt: &'a R,
    link: &'a SessionLink<'b>,
    // The piece that is read from, and how many of its bytes were.
    piece: Option<Piece>,
    used: usize,
    soon: SpinRead,
    // Whether the next bytes begin a request.
    is_between: bool,
}

impl<'a, 'b, R: Wait + time::Clock> Feed<'a, 'b, R> {
    pub fn new(rt: &'a R, link: &'a SessionLink<'b>) -> Feed<'a, 'b, R> {
        Feed {
            rt,
            link,
            piece: None,
            used: 0,
            soon: SpinRead::new(),
            is_between: true,
        }
    }

    // The next bytes of the piece that is read from, as many as there is room for.
    fn copy(&mut self, buf: &mut [u8]) -> usize
        ensures { result ≤ length buf.new }
    {
        let Some(piece) = &self.piece else {
            return 0;
        };
        let bytes = piece.bytes.as_slice();
        let rest = bytes.get(self.used..piece.count).unwrap_or_default();
        let count = rest.len().min(buf.len());
        buf[..count].copy_from_slice(&rest[..count]);
        self.used = self.used.saturating_add(count);
        count
    }

    // Whether the piece that is read from has more bytes.
    fn has_rest(&self) -> bool {
        match &self.piece {
            Some(piece) => self.used < piece.count,
            None => false,
        }
    }

    // Waits for a piece that has bytes, where the socket isn't the reader's.
    fn make_ready(&mut self) {
        for _ in self.rt.forever() {
            if self.has_rest() {
                return;
            }
            if let Some(piece) = self.piece.take() {
                self.link.ahead.give_back(self.rt, piece);
            }
            self.used = 0;
            self.piece = self.next();
            if self.piece.is_none() {
                return;
            }
        }
    }

    // What comes from the socket within a while, where the session asks for little.
    fn read_soon(&mut self, buf: &mut [u8]) -> Option<usize>
        ensures { IfSome result (λ n. n ≤ length buf.new) }
    {
        if self.link.is_bulk() {
            return None;
        }
        self.soon.read(self.link.peer, buf, self.link.interactive)
    }

    // What comes from the socket.
    fn read_later(&mut self, buf: &mut [u8]) -> io::Result<usize>
        ensures { ReadsAtMost result buf.new }
    {
        let mut peer = self.link.peer;
        let seat = self.link.seat;
        if self.is_between {
            seat.wait_for_client(self.rt, peer, self.link.traffic());
        } else if let Some(came) = seat.read_within(self.rt, peer, buf) {
            return Ok(came);
        }
        let came = peer.read(buf);
        self.link.seat.end_wait();
        came
    }

    // The next piece. None where the socket is the reader's. What was written is sent before it waits, and what was left to the other
    // thread let go.
    fn next(&self) -> Option<Piece> {
        let ahead = &self.link.ahead;
        for _ in self.rt.forever() {
            let heard = ahead.pieces.heard();
            let (piece, mine) = ahead.next(self.rt);
            if piece.is_some() {
                return piece;
            }
            self.link.send_kept();
            if mine {
                return None;
            }
            if self.is_between {
                self.link.seat.wait_for_pieces(self.rt, self.link.traffic());
            } else {
                self.link.seat.leave(self.rt, true);
            }
            ahead.discards.let_go();
            ahead.pieces.wait(self.rt, heard, None);
            self.link.seat.end_wait();
        }
        unreachable!()
    }
}

impl<R: Wait + time::Clock> Buffered for Feed<'_, '_, R> {
    /// The bytes of pieces that were read ahead, for which it waits where the socket isn't the reader's.
    fn append_buffered<A: Allocator + Copy>(
        &mut self,
        payload: &mut Growing<A>,
        spares: &mut Spares<A>,
        whole: usize,
    ) -> Result<bool, NoMemory> {
        self.is_between = false;
        self.make_ready();
        let Some(piece) = &self.piece else {
            return Ok(false);
        };
        let bytes = piece.bytes.as_slice();
        let rest = bytes.get(self.used..piece.count).unwrap_or_default();
        let count = append_front(payload, spares, rest, whole)?;
        self.used = self.used.saturating_add(count);
        Ok(count > 0)
    }
}

impl<R: Wait + time::Clock> Read for Feed<'_, '_, R> {
    fn read(&mut self, buf: &mut [u8]) -> io::Result<usize> {
        self.is_between = buf.len() > LONGEST_STRETCH;
        self.make_ready();
        let most = buf.len().min(FRONT);
        let count = self.copy(&mut buf[..most]);
        if count > 0 {
            return Ok(count);
        }
        let came = match self.read_soon(buf) {
            Some(count) => Ok(count),
            None => self.read_later(buf),
        };
        self.link.interactive.rest_behind(&came, MUCH_READ_BYTES);
        came
    }
}
