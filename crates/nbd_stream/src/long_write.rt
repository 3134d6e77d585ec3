//! Long WRITEs, whose payload goes into its pages as it comes.
ghost use Rattle.std.specs.Prelude.{◌≡◌, ◌<◌, ◌≤◌, ◌+◌, ◌++◌, [], length, take, None, IfOk, IfErr, OnOk};
ghost use Rattle.nbd_wire.specs.Grammar.{head_text, request_text, IsRequest};
ghost use Rattle.nbd_wire.specs.Pieces.{IsBegun};
ghost use Rattle.nbd_stream.specs.Frames.{TakesIn, Fetches};
ghost use Rattle.nbd_stream.specs.Intake.{taken_in, nothing_held, IsPartly, Lengthens, EndsWithin};

use crate::buffered::Buffered;
use crate::counted::Counted;
use crate::ending::Ending;
use nbd_wire::{BegunWrite, FeedFault, Request, RequestHead};
use payload::{Growing, Spares};
use std::alloc::Allocator;
use std::io::Read;

/// The most bytes of a payload that are read at once: whole pages of it, where they came whole so far.
const STRETCH: usize = 65_536;

/// Takes the next bytes of a long WRITE: what the reader has read already, or else by way of the buffer, and none behind its end. It
/// is ready once it is whole.
pub fn read_on<A: Allocator + Copy, R: Buffered>(
    reader: &mut Counted<R>,
    buffer: &mut [u8],
    write: BegunWrite<A>,
    begun: &mut Option<BegunWrite<A>>,
    spares: &mut Spares<A>,
    ready: &mut Vec<Request<A>, A>,
) -> Result<Option<FeedFault>, Ending>
    requires room { 0 < length buffer.old }
    requires none { ready.old.items ≡ [] }
    requires not_begun { begun.old ≡ None }
    ensures fetched { Fetches (R.remaining reader.old.inner)
        (R.remaining reader.new.inner) reader.old.failures reader.new.failures
        (request_text write) ready.new.items (taken_in begun.new nothing_held) result }
    ensures more { IfOk result (λ fault. fault ≡ None → ready.new.items ≡ []
        → length (request_text write) < length (taken_in begun.new nothing_held).held) }
{
    let (head, mut payload) = write.into_parts();
    match reader.append_buffered(&mut payload, spares, head.length as usize) {
        Ok(true) => Ok(keep(head, payload, begun, ready)),
        Ok(false) => read_by_buffer(reader, buffer, head, payload, begun, spares, ready),
        Err(_) => Ok(Some(FeedFault::NoMemory)),
    }
}

/// Reads the next bytes of a long WRITE by way of the buffer.
fn read_by_buffer<A: Allocator + Copy, R: Buffered>(
    reader: &mut Counted<R>,
    buffer: &mut [u8],
    head: RequestHead,
    payload: Growing<A>,
    begun: &mut Option<BegunWrite<A>>,
    spares: &mut Spares<A>,
    ready: &mut Vec<Request<A>, A>,
) -> Result<Option<FeedFault>, Ending>
    requires unfinished { IsBegun (record { head = head; payload = payload }) }
    requires room { 0 < length buffer.old }
    requires none { ready.old.items ≡ [] }
    requires not_begun { begun.old ≡ None }
    ensures fetched { Fetches (R.remaining reader.old.inner)
        (R.remaining reader.new.inner) reader.old.failures reader.new.failures
        (head_text head ++ payload) ready.new.items (taken_in begun.new nothing_held) result }
    ensures more { IfOk result (λ fault. fault ≡ None → ready.new.items ≡ []
        → length (head_text head ++ payload) < length (taken_in begun.new nothing_held).held) }
{
    let whole = head.length as usize;
    let stretch = (whole - payload.len()).min(buffer.len()).min(STRETCH);
    let room = &mut buffer[..stretch];
    match read_behind(reader, room, &payload, whole) {
        Ok(count) => Ok(go_on(head, payload, &room[..count], begun, spares, ready)),
        Err(ending) => Err(ending),
    }
}

/// Reads the next bytes of a payload that is to have so many, and tells how many came.
fn read_behind<A: Allocator + Copy, R: Buffered>(
    reader: &mut Counted<R>,
    room: &mut [u8],
    payload: &Growing<A>,
    whole: usize,
) -> Result<usize, Ending>
    requires some { 0 < length room.old }
    requires missing { length payload.now + length room.old ≤ whole }
    ensures within { IfOk result (λ count. count ≤ length room.new) }
    ensures came { IfOk result
        (λ count. Lengthens (R.remaining reader.old.inner) (R.remaining reader.new.inner)
        payload.now (payload.now ++ take count room.new) whole) }
    ensures kept { OnOk result (reader.new.failures ≡ reader.old.failures) }
    ensures ended { IfErr result (EndsWithin (R.remaining reader.old.inner)
        (R.remaining reader.new.inner) reader.old.failures reader.new.failures) }
{
    match reader.read(room) {
        Ok(0) => Err(Ending::Cut),
        Ok(count) => Ok(count),
        Err(_) => Err(Ending::ReadFailed),
    }
}

/// Bytes came behind the beginning of a long WRITE's payload.
fn go_on<A: Allocator + Copy>(
    head: RequestHead,
    mut payload: Growing<A>,
    piece: &[u8],
    begun: &mut Option<BegunWrite<A>>,
    spares: &mut Spares<A>,
    ready: &mut Vec<Request<A>, A>,
) -> Option<FeedFault>
    requires partly { IsPartly (record { head = head; payload = payload ++ piece.now }) }
    requires none { ready.old.items ≡ [] }
    requires not_begun { begun.old ≡ None }
    ensures taken { TakesIn [] (head_text head
        ++ (payload ++ piece.now)) ready.new.items (taken_in begun.new nothing_held) result }
{
    match payload.append(spares, piece) {
        Ok(()) => keep(head, payload, begun, ready),
        Err(_) => Some(FeedFault::NoMemory),
    }
}

/// What came of a long WRITE is kept until it is whole. Then it is ready.
fn keep<A: Allocator + Copy>(
    head: RequestHead,
    payload: Growing<A>,
    begun: &mut Option<BegunWrite<A>>,
    ready: &mut Vec<Request<A>, A>,
) -> Option<FeedFault>
    requires partly { IsPartly (record { head = head; payload = payload }) }
    requires none { ready.old.items ≡ [] }
    requires not_begun { begun.old ≡ None }
    ensures taken { TakesIn [] (head_text head
        ++ payload) ready.new.items (taken_in begun.new nothing_held) result }
{
    if payload.len() < head.length as usize {
        *begun = Some(BegunWrite::new(head, payload));
        return None;
    }
    match payload.finish() {
        Ok(payload) => give(Request::new(head, payload), ready),
        Err(_) => Some(FeedFault::NoMemory),
    }
}

/// A request is ready.
fn give<A: Allocator + Copy>(
    request: Request<A>,
    ready: &mut Vec<Request<A>, A>,
) -> Option<FeedFault>
    requires none { ready.old.items ≡ [] }
    requires fits { IsRequest request }
    ensures { TakesIn [] (request_text request) ready.new.items nothing_held result }
{
    match ready.push(request) {
        Ok(()) => None,
        Err(_) => Some(FeedFault::NoMemory),
    }
}
