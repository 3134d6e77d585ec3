//! A client's bytes that are read ahead by a thread of their own, while its long WRITEs are copied and performed.

use crate::discards::Discards;
use nbd_base::NoMemory;
use nbd_policy::{ENOUGH_BLANK_PIECES, FEW_SHORT_PIECES, PIECE_BYTES, PIECES, short_pieces};
use nbd_workers::Bell;
use std::alloc::Global;
use std::collections::VecDeque;
use std::io;
use std::io::Read;
use std::net::TcpStream;
use std::sync::atomic::{AtomicBool, AtomicUsize, Ordering};
use std::sync::{Mutex, Wait};

/// What one read gave.
#[derive(Drop)]
pub struct Piece {
    pub bytes: Vec<u8, Global>,
    /// How many of them came.
    pub count: usize,
}

/// What was read ahead of one connection. Either its reader has the socket, or the thread that reads ahead.
#[derive(Drop)]
pub struct ReadAhead {
    // The oldest first. There is room for all.
    came: Mutex<VecDeque<Piece, Global>>,
    // Memory for pieces that nobody uses, and how many pieces have memory.
    blank: Mutex<Vec<Vec<u8, Global>, Global>>,
    made: AtomicUsize,
    // Whether it is to be read ahead, and whether the other thread has the socket.
    wanted: AtomicBool,
    running: AtomicBool,
    // Whether that thread was started, and whether it is to end.
    started: AtomicBool,
    over: AtomicBool,
    /// What the reader's holds took out of the images, which the other thread lets go while it reads ahead.
    pub discards: Discards,
    /// Rung where a piece came, or the socket was given back.
    pub(crate) pieces: Bell,
    // Rung where the other thread has something to do.
    work: Bell,
}

impl ReadAhead {
    pub fn new(alloc: Global) -> Result<ReadAhead, NoMemory> {
        Ok(ReadAhead {
            came: Mutex::new(VecDeque::with_capacity(alloc, PIECES)?),
            blank: Mutex::new(Vec::with_capacity(alloc, PIECES)?),
            made: AtomicUsize::new(0),
            wanted: AtomicBool::new(false),
            running: AtomicBool::new(false),
            started: AtomicBool::new(false),
            over: AtomicBool::new(false),
            discards: Discards::new(),
            pieces: Bell::new(),
            work: Bell::new(),
        })
    }

    /// Whether a thread is to be started for it. From the second call on it is false.
    pub fn wants_thread(&self) -> bool {
        !self.started.swap(true, Ordering::SeqCst)
    }

    /// No thread could be had.
    pub fn has_no_thread(&self) {
        self.started.store(false, Ordering::SeqCst);
    }

    /// Leaves the socket to the thread that reads ahead. Only the reader calls it.
    pub fn start(&self) {
        self.wanted.store(true, Ordering::SeqCst);
        if !self.running.load(Ordering::SeqCst) {
            self.running.store(true, Ordering::SeqCst);
            self.work.ring();
        }
    }

    /// The reader is to have the socket again.
    pub fn stop(&self) {
        if self.wanted.load(Ordering::SeqCst) {
            self.wanted.store(false, Ordering::SeqCst);
            self.work.ring();
        }
    }

    /// The session is over: the other thread ends.
    pub fn end(&self) {
        self.over.store(true, Ordering::SeqCst);
        self.work.ring();
    }

    /// Whether a piece came that isn't used yet.
    pub fn has_more<R: Wait>(&self, rt: &R) -> bool {
        self.running.load(Ordering::SeqCst) && !self.came.lock(rt).is_empty()
    }

    /// The next piece, where one came, and whether the socket is the reader's.
    pub(crate) fn next<R: Wait>(&self, rt: &R) -> (Option<Piece>, bool) {
        let running = self.running.load(Ordering::SeqCst);
        (self.came.lock(rt).pop_front(), !running)
    }

    /// A piece was used. Where half of all are blank the other thread goes on.
    pub(crate) fn give_back<R: Wait>(&self, rt: &R, piece: Piece) {
        if !self.running.load(Ordering::SeqCst) {
            self.made.fetch_sub(1, Ordering::SeqCst);
            return;
        }
        let mut blank = self.blank.lock(rt);
        if blank.len() < blank.capacity() {
            blank.push_reserved(piece.bytes);
        }
        let enough = blank.len() >= ENOUGH_BLANK_PIECES;
        drop(blank);
        if enough {
            self.work.ring();
        }
    }

    /// Reads ahead where that is wanted, until the session is over.
    pub fn run<R: Wait>(&self, rt: &R, alloc: Global, peer: &TcpStream) {
        let mut short = 0usize;
        for _ in rt.forever() {
            let heard = self.work.heard();
            if self.over.load(Ordering::SeqCst) {
                return;
            }
            if !self.running.load(Ordering::SeqCst) {
                short = 0;
                self.work.wait(rt, heard, None);
            } else if short >= FEW_SHORT_PIECES || !self.wanted.load(Ordering::SeqCst) {
                self.hand_back(rt);
            } else if let Some(bytes) = self.obtain(rt, alloc) {
                let count = self.read_piece(rt, peer, bytes);
                short = short_pieces(short, count);
                self.discards.work(rt, alloc);
            } else {
                self.work.wait(rt, heard, None);
            }
        }
    }

    // Memory for a piece. None where all pieces are in use, or where memory is refused: then it is read ahead no more.
    fn obtain<R: Wait>(&self, rt: &R, alloc: Global) -> Option<Vec<u8, Global>> {
        let blank = self.blank.lock(rt).pop();
        if blank.is_some() || self.made.load(Ordering::SeqCst) >= PIECES {
            return blank;
        }
        let made = Vec::from_elem(alloc, 0, PIECE_BYTES).ok();
        if made.is_some() {
            self.made.fetch_add(1, Ordering::SeqCst);
        } else {
            self.stop();
        }
        made
    }

    // Reads once, and tells how many bytes came. Where the input has ended, or the read failed, the socket tells the reader so.
    fn read_piece<R: Wait>(
        &self,
        rt: &R,
        mut peer: &TcpStream,
        mut bytes: Vec<u8, Global>,
    ) -> usize {
        let count = peer.read(bytes.as_mut_slice()).unwrap_or(0);
        let mut came = self.came.lock(rt);
        if came.len() < came.capacity() {
            came.push_back_reserved(Piece { bytes, count });
        }
        drop(came);
        self.pieces.ring();
        count
    }

    // The socket is the reader's again, and the memory that nobody uses is given back.
    fn hand_back<R: Wait>(&self, rt: &R) {
        let mut blank = self.blank.lock(rt);
        self.made.fetch_sub(blank.len(), Ordering::SeqCst);
        blank.clear();
        drop(blank);
        self.discards.close(rt);
        self.running.store(false, Ordering::SeqCst);
        self.pieces.ring();
    }
}
