//! Requests out of a reader, whose bytes may come in pieces of any size.

use crate::buffered::Buffered;
use crate::counted::Counted;
use crate::ending::{Ending, Frame};
use crate::intake::Intake;
use crate::pieces::advance;
use nbd_wire::{FeedFault, Request};
use payload::Spares;
use std::alloc::Allocator;
use std::marker::Model;

/// The requests of one client, out of the reader that each call is handed: it is to be the same one.
#[derive(Drop)]
pub struct Frames<A: Allocator + Copy> {
    intake: Intake<A>,
    // The requests that are ready, the last first.
    ready: Vec<Request<A>, A>,
    // What was met behind them.
    fault: Option<FeedFault>,
    ended: Option<Ending>,
    buffer: Vec<u8, A>,
    alloc: A,
}

impl<A: Allocator + Copy> Model for Frames<A> {
    ghost use Rattle.std.specs.Prelude.{length};
    ghost use Rattle.nbd_stream.specs.Frames.{Reading, kept_of, IsFraming};

    ghost Value = { Reading };

    ghost view = { λ f.
        record {
          kept = kept_of f.ready.items f.intake.held;
          ready = length f.ready.items;
          ended = f.ended;
        } };

    ghost invariant = { λ f. IsFraming f.ready.items f.fault f.intake };
}

impl<A: Allocator + Copy> Frames<A> {
    ghost use Rattle.std.specs.Prelude.{◌≡◌, ◌<◌, [], length, Some, None};
    ghost use Rattle.nbd_stream.specs.declared.ending.Ending.{Ending};
    ghost use Rattle.std.specs.Prelude.{◌↔◌, IsTrue};
    ghost use Rattle.nbd_wire.specs.Grammar.{BeginsWhole};
    ghost use Rattle.nbd_stream.specs.Frames.{Nexts, IsWhole};

    /// Nothing was read yet.
    pub fn new(alloc: A) -> Frames<A>
        ensures { result ≡ record { kept = []; ready = 0; ended = None } }
    {
        Frames {
            intake: Intake::new(alloc),
            ready: Vec::new(alloc),
            fault: None,
            ended: None,
            buffer: Vec::new(alloc),
            alloc,
        }
    }

    /// The next request, or how the reading ended; then each later call tells the same.
    ///
    /// A request that is ready is given without a read, whatever memory there is. So want of memory is told only where none
    /// is ready: for the next piece, or for a request in what was read.
    pub fn next<R: Buffered>(&mut self, reader: &mut Counted<R>) -> Frame<A>
        ensures next { self.old.ended ≡ None
            → Nexts self.old self.new (R.remaining reader.old.inner) (R.remaining reader.new.inner)
            reader.old.failures reader.new.failures result }
        ensures ready { self.old.ended ≡ None → 0 < self.old.ready
            → IsWhole result × (reader.new ≡ reader.old) }
        ensures again { (e : Ending) → self.old.ended ≡ Some e
            → (result ≡ Frame.Ended e) × (self.new ≡ self.old) × (reader.new ≡ reader.old) }
    {
        if let Some(ending) = self.ended {
            return Frame::Ended(ending);
        }
        match advance(
            self.alloc,
            reader,
            &mut self.buffer,
            &mut self.intake,
            &mut self.ready,
            &mut self.fault,
        ) {
            Ok(request) => Frame::Whole(request),
            Err(ending) => {
                self.ended = Some(ending);
                Frame::Ended(ending)
            }
        }
    }

    /// Exchanges the spare pages, from which payloads get their memory, for others.
    pub fn exchange(&mut self, spares: &mut Spares<A>)
        ensures { self.new ≡ self.old }
    {
        self.intake.exchange(spares);
    }

    /// Whether the next call gives a request without reading.
    pub fn is_ready(&self) -> bool
        ensures ready { IsTrue result ↔ (0 < self.now.ready) }
        ensures first { IsTrue result → BeginsWhole self.now.kept }
    {
        !self.ready.as_slice().is_empty()
    }

    /// The requests that are ready, the last first.
    pub fn ready(&self) -> &[Request<A>]
        ensures { length result.now ≡ self.now.ready }
    {
        self.ready.as_slice()
    }
}

/// The requests of one client, with the reader that they come out of.
#[derive(Drop)]
pub struct FrameReader<R: Buffered, A: Allocator + Copy> {
    reader: Counted<R>,
    frames: Frames<A>,
}

impl<R: Buffered, A: Allocator + Copy> Model for FrameReader<R, A> {
    ghost use Rattle.nbd_stream.specs.Frames.{Stream};

    ghost Value = { Stream };

    ghost view = { λ f.
        record {
          left = R.remaining f.reader.inner;
          failures = f.reader.failures;
          reading = f.frames;
        } };
}

impl<R: Buffered, A: Allocator + Copy> FrameReader<R, A> {
    ghost use Rattle.std.specs.Prelude.{◌≡◌, ◌<◌, [], length, Some, None};
    ghost use Rattle.nbd_stream.specs.declared.ending.Ending.{Ending};
    ghost use Rattle.std.specs.Prelude.{◌↔◌, IsTrue};
    ghost use Rattle.nbd_wire.specs.Grammar.{BeginsWhole};
    ghost use Rattle.nbd_stream.specs.Frames.{Nexts, IsWhole};

    /// Nothing was read yet.
    pub fn new(alloc: A, reader: Counted<R>) -> FrameReader<R, A>
        ensures { result ≡ record {
          left = R.remaining reader.inner;
          failures = reader.failures;
          reading = record { kept = []; ready = 0; ended = None };
        } }
    {
        FrameReader {
            reader,
            frames: Frames::new(alloc),
        }
    }

    /// The next request, or how the reading ended; then each later call tells the same.
    ///
    /// A request that is ready is given without a read, whatever memory there is. So want of memory is told only where none
    /// is ready: for the next piece, or for a request in what was read.
    pub fn next(&mut self) -> Frame<A>
        ensures next { self.old.reading.ended ≡ None
            → Nexts self.old.reading self.new.reading self.old.left self.new.left
            self.old.failures self.new.failures result }
        ensures ready { self.old.reading.ended ≡ None → 0 < self.old.reading.ready
            → IsWhole result × (self.new.left ≡ self.old.left)
            × (self.new.failures ≡ self.old.failures) }
        ensures again { (e : Ending) → self.old.reading.ended ≡ Some e
            → (result ≡ Frame.Ended e) × (self.new ≡ self.old) }
    {
        self.frames.next(&mut self.reader)
    }

    /// Exchanges the spare pages, from which payloads get their memory, for others.
    pub fn exchange(&mut self, spares: &mut Spares<A>)
        ensures { self.new ≡ self.old }
    {
        self.frames.exchange(spares);
    }

    /// Whether the next call gives a request without reading: one stands first in the bytes that were read.
    pub fn is_ready(&self) -> bool
        ensures ready { IsTrue result ↔ (0 < self.now.reading.ready) }
        ensures first { IsTrue result → BeginsWhole self.now.reading.kept }
    {
        self.frames.is_ready()
    }

    /// The requests that are ready, the last first.
    pub fn ready(&self) -> &[Request<A>]
        ensures { length result.now ≡ self.now.reading.ready }
    {
        self.frames.ready()
    }
}
