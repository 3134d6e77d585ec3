//! WRITEs whose payload came in part.
ghost use Rattle.std.specs.Prelude.{◌≡◌, ◌≤◌, length, drop, None, IfOk, IfSome};
ghost use Rattle.nbd_wire.specs.Pieces.{IsLong, BeginsLong, NoneBegins};

use crate::protocol::WRITE;
use crate::requests::{RequestHead, read_head};
use nbd_base::NoMemory;
use payload::{Growing, Spares};
use std::alloc::Allocator;
use std::marker::Model;

const HEAD: usize = 28;

/// A WRITE whose payload came in part: at least its last byte is missing.
#[derive(Drop)]
pub struct BegunWrite<A: Allocator + Copy> {
    head: RequestHead,
    payload: Growing<A>,
}

impl<A: Allocator + Copy> Model for BegunWrite<A> {
    ghost use Rattle.nbd_wire.specs.Grammar.{RequestMessage};
    ghost use Rattle.nbd_wire.specs.Pieces.{IsBegun};

    ghost Value = { RequestMessage };

    ghost view = { λ w. record { head = w.head; payload = w.payload } };

    ghost invariant = { λ w. IsBegun (record { head = w.head; payload = w.payload }) };
}

impl<A: Allocator + Copy> BegunWrite<A> {
    ghost use Rattle.std.specs.Prelude.{◌≡◌};
    ghost use Rattle.nbd_wire.specs.Pieces.{IsBegun};

    /// A WRITE of a head and what came of its payload.
    pub fn new(head: RequestHead, payload: Growing<A>) -> BegunWrite<A>
        requires { IsBegun (record { head = head; payload = payload }) }
        ensures { result ≡ record { head = head; payload = payload } }
    {
        BegunWrite { head, payload }
    }

    /// The head, and what came of the payload.
    pub fn into_parts(self) -> (RequestHead, Growing<A>)
        ensures head { result.0 ≡ self.head }
        ensures payload { result.1 ≡ self.payload }
        ensures begun { IsBegun self }
    {
        let Self { head, payload } = self;
        (head, payload)
    }
}

/// The WRITE whose head and a part of whose payload these bytes are, where it is one of `least` bytes or more.
pub fn begin_write<A: Allocator + Copy>(
    spares: &mut Spares<A>,
    bytes: &[u8],
    least: usize,
) -> Result<Option<BegunWrite<A>>, NoMemory>
    ensures { IfOk result (BeginsLong least bytes.now) }
{
    let Some(head) = begun_head(bytes, least) else {
        return Ok(None);
    };
    let mut payload = Growing::new(spares, head.offset)?;
    payload.append(spares, &bytes[HEAD..])?;
    Ok(Some(BegunWrite::new(head, payload)))
}

/// The head of that WRITE.
fn begun_head(bytes: &[u8], least: usize) -> Option<RequestHead>
    ensures long { IfSome result (λ h. (28 ≤ length bytes.now)
        × IsLong least bytes.now (record { head = h; payload = drop 28 bytes.now })) }
    ensures none { result ≡ None → NoneBegins least bytes.now }
{
    if bytes.len() < HEAD {
        return None;
    }
    let mut front = [0; 28];
    front.copy_from_slice(&bytes[..28]);
    let Ok(head) = read_head(&front) else {
        return None;
    };
    if head.kind != WRITE {
        return None;
    }
    let count = head.length as usize;
    if count < least {
        return None;
    }
    if count <= bytes.len() - HEAD {
        return None;
    }
    Some(head)
}
