//! Readers and writers that end or fail at a place.

use nbd_stream::Buffered;
use std::alloc::Global;
use std::io;
use std::io::{Read, Write};

/// Gives its bytes, so many at once at most, and then ends or fails.
#[derive(Drop)]
pub struct Source<'a> {
    pub bytes: &'a [u8],
    pub most: usize,
    pub fault: Option<io::ErrorKind>,
}

impl Read for Source<'_> {
    fn read(&mut self, buf: &mut [u8]) -> io::Result<usize> {
        if let (true, Some(kind)) = (self.bytes.is_empty(), self.fault) {
            return Err(io::Error::from(kind));
        }
        let count = buf.len().min(self.bytes.len()).min(self.most);
        let (front, rest) = self.bytes.split_at(count);
        buf[..count].copy_from_slice(front);
        self.bytes = rest;
        Ok(count)
    }
}

impl Buffered for Source<'_> {}

/// Takes so many bytes, some at once at most, and then fails.
#[derive(Drop)]
pub struct Sink {
    taken: Vec<u8>,
    room: usize,
    most: usize,
    kind: io::ErrorKind,
}

impl Sink {
    pub fn new(alloc: Global, room: usize, most: usize, kind: io::ErrorKind) -> Sink {
        Sink {
            taken: Vec::new(alloc),
            room,
            most,
            kind,
        }
    }

    /// Whether these bytes were taken, and no other.
    pub fn has(&self, bytes: &[u8]) -> bool {
        self.taken.as_slice() == bytes
    }
}

impl Write for Sink {
    fn write(&mut self, buf: &[u8]) -> io::Result<usize> {
        let count = buf.len().min(self.room).min(self.most);
        if count == 0 {
            return Err(io::Error::from(self.kind));
        }
        let (front, _) = buf.split_at(count);
        self.taken.extend_from_slice(front)?;
        self.room -= count;
        Ok(count)
    }

    fn flush(&mut self) -> io::Result<()> {
        Ok(())
    }
}

/// The first bytes of a text.
pub fn beginning(text: &[u8], count: usize) -> &[u8] {
    text.get(..count).unwrap_or_default()
}
