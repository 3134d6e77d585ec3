//! The bytes of a reader that stand in no request yet.
ghost use Rattle.std.specs.Prelude.{◌≡◌, ◌<◌, ◌==◌, [], length, false, None, IfOk, if◌then◌else◌};
ghost use Rattle.nbd_stream.specs.Frames.{IsBehindReady, TakesIn, Fetches};
ghost use Rattle.nbd_stream.specs.Intake.{taken_in, IsTakenIn};
ghost use Rattle.nbd_stream.specs.declared.ending.Ending.{Ending};

use crate::buffered::Buffered;
use crate::counted::Counted;
use crate::ending::Ending;
use crate::long_write::read_on;
use nbd_wire::{BegunWrite, Decoder, FeedFault, Request, begin_write};
use payload::Spares;
use std::alloc::Allocator;
use std::io::Read;
use std::marker::Model;
use std::mem;

/// The least payload, in bytes, that goes into its pages as it comes. It costs one more read where further requests wait behind
/// it, and saves a copy of it.
const LONG: usize = 32_768;

/// The bytes that stand in no request yet: what a decoder holds, or a long WRITE whose payload goes into its pages as it comes.
#[derive(Drop)]
pub struct Intake<A: Allocator + Copy> {
    decoder: Decoder<A>,
    begun: Option<BegunWrite<A>>,
    spares: Spares<A>,
}

impl<A: Allocator + Copy> Model for Intake<A> {
    ghost use Rattle.nbd_wire.specs.Pieces.{Decoding};
    ghost use Rattle.nbd_stream.specs.Intake.{taken_in, IsTakenIn};

    ghost Value = { Decoding };

    ghost view = { λ i. taken_in i.begun i.decoder };

    ghost invariant = { λ i. IsTakenIn i.begun i.decoder };
}

impl<A: Allocator + Copy> Intake<A> {
    ghost use Rattle.std.specs.Prelude.{◌≡◌, ◌<◌, [], length, false, None, IfOk};
    ghost use Rattle.nbd_stream.specs.Frames.{IsBehindReady, Fetches};

    /// Nothing was read yet.
    pub fn new(alloc: A) -> Intake<A>
        ensures { result ≡ record { held = []; failed = false } }
    {
        Intake {
            decoder: Decoder::new(alloc),
            begun: None,
            spares: Spares::new(alloc),
        }
    }

    /// Exchanges the spare pages, from which payloads get their memory, for others.
    pub fn exchange(&mut self, spares: &mut Spares<A>)
        ensures { self.new ≡ self.old }
    {
        mem::swap(&mut self.spares, spares);
    }

    /// Reads once into the buffer: a piece, or the next bytes of a long WRITE.
    pub fn fetch<R: Buffered>(
        &mut self,
        reader: &mut Counted<R>,
        buffer: &mut [u8],
        ready: &mut Vec<Request<A>, A>,
    ) -> Result<Option<FeedFault>, Ending>
        requires room { 0 < length buffer.old }
        requires none { ready.old.items ≡ [] }
        requires well { IsBehindReady None self.old }
        ensures fetched { Fetches (R.remaining reader.old.inner)
            (R.remaining reader.new.inner) reader.old.failures reader.new.failures
            self.old.held ready.new.items self.new result }
        ensures more { IfOk result (λ fault. fault ≡ None → ready.new.items ≡ []
            → length self.old.held < length self.new.held) }
    {
        match self.begun.take() {
            Some(write) => read_on(
                reader,
                buffer,
                write,
                &mut self.begun,
                &mut self.spares,
                ready,
            ),
            None => read_afresh(
                reader,
                buffer,
                &mut self.decoder,
                &mut self.begun,
                &mut self.spares,
                ready,
            ),
        }
    }
}

/// Reads once where no long WRITE was taken out of the decoder so far.
fn read_afresh<A: Allocator + Copy, R: Buffered>(
    reader: &mut Counted<R>,
    buffer: &mut [u8],
    decoder: &mut Decoder<A>,
    begun: &mut Option<BegunWrite<A>>,
    spares: &mut Spares<A>,
    ready: &mut Vec<Request<A>, A>,
) -> Result<Option<FeedFault>, Ending>
    requires room { 0 < length buffer.old }
    requires none { ready.old.items ≡ [] }
    requires well { IsBehindReady None decoder.old }
    requires not_begun { begun.old ≡ None }
    ensures fetched { Fetches (R.remaining reader.old.inner)
        (R.remaining reader.new.inner) reader.old.failures reader.new.failures
        decoder.old.held ready.new.items (taken_in begun.new decoder.new) result }
    ensures more { IfOk result (λ fault. fault ≡ None → ready.new.items ≡ []
        → length decoder.old.held < length (taken_in begun.new decoder.new).held) }
    ensures intake { IsTakenIn begun.new decoder.new }
{
    match decoder.take_begun(spares, LONG) {
        Ok(Some(write)) => read_on(reader, buffer, write, begun, spares, ready),
        Ok(None) => read_piece(reader, buffer, decoder, begun, spares, ready),
        Err(_) => Err(Ending::NoMemory),
    }
}

/// Reads one piece.
fn read_piece<A: Allocator + Copy, R: Buffered>(
    reader: &mut Counted<R>,
    buffer: &mut [u8],
    decoder: &mut Decoder<A>,
    begun: &mut Option<BegunWrite<A>>,
    spares: &mut Spares<A>,
    ready: &mut Vec<Request<A>, A>,
) -> Result<Option<FeedFault>, Ending>
    requires room { 0 < length buffer.old }
    requires none { ready.old.items ≡ [] }
    requires well { IsBehindReady None decoder.old }
    requires not_begun { begun.old ≡ None }
    ensures fetched { Fetches (R.remaining reader.old.inner)
        (R.remaining reader.new.inner) reader.old.failures reader.new.failures
        decoder.old.held ready.new.items (taken_in begun.new decoder.new) result }
    ensures more { IfOk result (λ fault. fault ≡ None → ready.new.items ≡ []
        → length decoder.old.held < length (taken_in begun.new decoder.new).held) }
    ensures intake { IsTakenIn begun.new decoder.new }
{
    let held = decoder.rest();
    match reader.read(buffer) {
        Ok(0) => Err(over(held)),
        Ok(count) => Ok(take_in(decoder, begun, spares, &buffer[..count], ready)),
        Err(_) => Err(Ending::ReadFailed),
    }
}

/// How the input ends, where so many bytes are in no request.
fn over(held: usize) -> Ending
    ensures { result ≡ (if held == 0 then Ending.Over else Ending.Cut) }
{
    if held == 0 { Ending::Over } else { Ending::Cut }
}

/// Takes in one piece. The requests that it makes whole are ready, the last first.
fn take_in<A: Allocator + Copy>(
    decoder: &mut Decoder<A>,
    begun: &mut Option<BegunWrite<A>>,
    spares: &mut Spares<A>,
    piece: &[u8],
    ready: &mut Vec<Request<A>, A>,
) -> Option<FeedFault>
    requires none { ready.old.items ≡ [] }
    requires well { decoder.old.failed ≡ false }
    requires not_begun { begun.old ≡ None }
    ensures taken { TakesIn decoder.old.held piece.now ready.new.items
        (taken_in begun.new decoder.new) result }
    ensures intake { IsTakenIn begun.new decoder.new }
{
    if decoder.rest() != 0 {
        return feed(decoder, spares, piece, ready);
    }
    match begin_write(spares, piece, LONG) {
        Ok(Some(write)) => {
            *begun = Some(write);
            None
        }
        Ok(None) => feed(decoder, spares, piece, ready),
        Err(_) => Some(FeedFault::NoMemory),
    }
}

/// Feeds one piece to a decoder. The requests that it makes whole are ready, the last first.
fn feed<A: Allocator + Copy>(
    decoder: &mut Decoder<A>,
    spares: &mut Spares<A>,
    piece: &[u8],
    ready: &mut Vec<Request<A>, A>,
) -> Option<FeedFault>
    requires none { ready.old.items ≡ [] }
    requires well { decoder.old.failed ≡ false }
    ensures { TakesIn decoder.old.held piece.now ready.new.items decoder.new result }
{
    let outcome = decoder.feed(spares, piece, ready);
    ready.reverse();
    match outcome {
        Ok(()) => None,
        Err(fault) => Some(fault),
    }
}
