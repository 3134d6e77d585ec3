ghost use Rattle.std.specs.Prelude.{◌≡◌, ◌≤◌, ◌++◌, [], length, drop, vec_len};
ghost use Rattle.nbd_wire.specs.Grammar.{head_text, IsHead, IsTooLong};
ghost use Rattle.nbd_wire.specs.Pieces.{IsFirst, IsBehind, Takes, Gathers};

use crate::fault::{FeedFault, WireFault};
use crate::protocol::WRITE;
use crate::requests::{Request, RequestHead, read_head};
use bytes::Bytes;
use payload::{Payload, Spares};
use std::alloc::Allocator;

const HEAD: usize = 28;

/// Adds a piece to the bytes that are held, and takes each request that is whole then.
pub fn gather<A: Allocator + Copy, B: Allocator>(
    spares: &mut Spares<A>,
    held: &mut Vec<u8, A>,
    piece: &[u8],
    out: &mut Vec<Request<A>, B>,
) -> Result<(), FeedFault>
    ensures { Gathers held.old.items piece.now held.new.items out.old.items out.new.items result }
{
    if held.is_empty() {
        return gather_alone(spares, held, piece, out);
    }
    if held.extend_from_slice(piece).is_err() {
        return Err(FeedFault::NoMemory);
    }
    let (at, outcome) = split(spares, held.as_slice(), out);
    drop_front(held, at);
    outcome
}

/// The same where none are held: only what is behind the piece's requests is copied.
fn gather_alone<A: Allocator + Copy, B: Allocator>(
    spares: &mut Spares<A>,
    held: &mut Vec<u8, A>,
    piece: &[u8],
    out: &mut Vec<Request<A>, B>,
) -> Result<(), FeedFault>
    requires none { held.old.items ≡ [] }
    ensures { Gathers [] piece.now held.new.items out.old.items out.new.items result }
{
    if held.try_reserve(piece.len()).is_err() {
        return Err(FeedFault::NoMemory);
    }
    let (at, outcome) = split(spares, piece, out);
    match held.extend_from_slice(&piece[at..]) {
        Ok(()) => outcome,
        Err(_) => unreachable!(),
    }
}

/// Takes the requests at the front of some bytes, and tells where they end.
fn split<A: Allocator + Copy, B: Allocator>(
    spares: &mut Spares<A>,
    bytes: &[u8],
    out: &mut Vec<Request<A>, B>,
) -> (usize, Result<(), FeedFault>)
    ensures within { result.0 ≤ length bytes.now }
    ensures taken { Takes bytes.now (drop result.0 bytes.now) out.old.items out.new.items }
    ensures behind { IsBehind (drop result.0 bytes.now) result.1 }
{
    let mut at = 0;
    loop {
        let request = match first(spares, &bytes[at..]) {
            Ok(Some(request)) => request,
            Ok(None) => return (at, Ok(())),
            Err(fault) => return (at, Err(fault)),
        };
        let count = HEAD + request.payload().len();
        if out.push(request).is_err() {
            return (at, Err(FeedFault::NoMemory));
        }
        at += count;
    }
}

/// Forgets the first bytes.
fn drop_front<A: Allocator>(held: &mut Vec<u8, A>, at: usize)
    requires { at ≤ vec_len held.old }
    ensures { held.new.items ≡ drop at held.old.items }
{
    if at == 0 {
        return;
    }
    let rest = held.len() - at;
    held.copy_within(at.., 0);
    held.truncate(rest);
}

/// The request at the front of some bytes, where it is whole.
fn first<A: Allocator + Copy>(
    spares: &mut Spares<A>,
    bytes: &[u8],
) -> Result<Option<Request<A>>, FeedFault>
    ensures { IsFirst bytes.now result }
{
    if bytes.len() < HEAD {
        return Ok(None);
    }
    let mut head = [0; 28];
    head.copy_from_slice(&bytes[..28]);
    match read_head(&head) {
        Err(WireFault::BadMagic) => Err(FeedFault::BadMagic),
        Err(WireFault::TooLong) => Err(FeedFault::TooLong),
        Ok(head) => behind_head(spares, head, &bytes[28..]),
    }
}

/// The request of a head, where what follows it is whole.
fn behind_head<A: Allocator + Copy>(
    spares: &mut Spares<A>,
    head: RequestHead,
    rest: &[u8],
) -> Result<Option<Request<A>>, FeedFault>
    requires fits { IsHead head }
    requires short { IsTooLong head → ⊥ }
    ensures { IsFirst (head_text head ++ rest.now) result }
{
    if head.kind != WRITE {
        return Ok(Some(Request::of_bytes(head, Bytes::new())));
    }
    let count = head.length as usize;
    if rest.len() < count {
        return Ok(None);
    }
    match Payload::copied_to(spares, head.offset, &rest[..count]) {
        Ok(payload) => Ok(Some(Request::new(head, payload))),
        Err(_) => Err(FeedFault::NoMemory),
    }
}
