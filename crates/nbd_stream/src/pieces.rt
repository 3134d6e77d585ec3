//! Pieces out of a reader, and the requests that they make whole.
ghost use Rattle.std.specs.Prelude.{◌≡◌, ◌≢◌, ◌<◌, [], vec_len, None, IsOk, IfOk, OnOk};
ghost use Rattle.nbd_stream.specs.Frames.{IsBehindReady, IsFraming, Fetches, Advances, ending_of};
ghost use Rattle.nbd_stream.specs.declared.ending.Ending.{Ending};

use crate::buffered::Buffered;
use crate::counted::Counted;
use crate::ending::Ending;
use crate::intake::Intake;
use nbd_wire::{FeedFault, Request};
use std::alloc::{AllocError, Allocator};

/// The most bytes that are read at once: a request's head and 65,536 bytes behind it.
const PIECE: usize = 65_564;

/// The next request: the first that is ready, or else the first of those that the bytes read next make whole. Requests
/// are given before the fault that was met behind them.
pub fn advance<A: Allocator + Copy, R: Buffered>(
    alloc: A,
    reader: &mut Counted<R>,
    buffer: &mut Vec<u8, A>,
    intake: &mut Intake<A>,
    ready: &mut Vec<Request<A>, A>,
    fault: &mut Option<FeedFault>,
) -> Result<Request<A>, Ending>
    requires framing { IsFraming ready.old.items fault.old intake.old }
    ensures advanced { Advances (R.remaining reader.old.inner)
        (R.remaining reader.new.inner) reader.old.failures reader.new.failures
        ready.old.items intake.old.held ready.new.items intake.new.held result }
    ensures ready { ready.old.items ≢ [] → IsOk result × (reader.new ≡ reader.old) }
    ensures framing { IsFraming ready.new.items fault.new intake.new }
{
    if let Some(request) = ready.pop() {
        return Ok(request);
    }
    if let Some(known) = *fault {
        return Err(ending_of(known));
    }
    let found = match more(alloc, reader, buffer, intake, ready) {
        Ok(found) => found,
        Err(ending) => return Err(ending),
    };
    *fault = found;
    if let Some(request) = ready.pop() {
        return Ok(request);
    }
    match found {
        Some(known) => Err(ending_of(known)),
        None => unreachable!(),
    }
}

/// How the reading ends by a fault of the decoder.
fn ending_of(fault: FeedFault) -> Ending
    ensures { result ≡ ending_of fault }
{
    match fault {
        FeedFault::BadMagic => Ending::BadMagic,
        FeedFault::TooLong => Ending::TooLong,
        FeedFault::NoMemory | FeedFault::Failed => Ending::NoMemory,
    }
}

/// Reads pieces until a request is ready, or a fault is met.
fn more<A: Allocator + Copy, R: Buffered>(
    alloc: A,
    reader: &mut Counted<R>,
    buffer: &mut Vec<u8, A>,
    intake: &mut Intake<A>,
    ready: &mut Vec<Request<A>, A>,
) -> Result<Option<FeedFault>, Ending>
    requires none { ready.old.items ≡ [] }
    requires well { IsBehindReady None intake.old }
    ensures fetched { Fetches (R.remaining reader.old.inner)
        (R.remaining reader.new.inner) reader.old.failures reader.new.failures
        intake.old.held ready.new.items intake.new result }
    ensures some { IfOk result (λ fault. fault ≡ None → ready.new.items ≢ []) }
{
    if obtain(alloc, buffer).is_err() {
        return Err(Ending::NoMemory);
    }
    loop {
        let fault = match intake.fetch(reader, buffer, ready) {
            Ok(fault) => fault,
            Err(ending) => return Err(ending),
        };
        if fault.is_some() || !ready.is_empty() {
            return Ok(fault);
        }
    }
}

/// Obtains the memory for a piece, where it isn't there yet.
fn obtain<A: Allocator + Copy>(alloc: A, buffer: &mut Vec<u8, A>) -> Result<(), AllocError>
    ensures { OnOk result (0 < vec_len buffer.new) }
{
    if buffer.is_empty() {
        *buffer = vec![in alloc; 0; PIECE]?;
    }
    Ok(())
}
