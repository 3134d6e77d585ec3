use crate::begun::{BegunWrite, begin_write};
use crate::fault::FeedFault;
use crate::pieces::gather;
use crate::requests::Request;
use nbd_base::NoMemory;
use payload::Spares;
use std::alloc::Allocator;
use std::marker::Model;

/// The requests of a stream that comes in pieces of any size (NBD protocol, "Request message").
///
/// It holds the bytes of a request that isn't whole yet. Once a call failed it takes no more pieces, and each call answers `Failed`.
#[derive(Drop)]
pub struct Decoder<A: Allocator + Copy> {
    held: Vec<u8, A>,
    failed: bool,
}

impl<A: Allocator + Copy> Model for Decoder<A> {
    ghost use Rattle.std.specs.Prelude.{◌≡◌, false};
    ghost use Rattle.nbd_wire.specs.Grammar.{IsUnfinished};
    ghost use Rattle.nbd_wire.specs.Pieces.{Decoding};

    ghost Value = { Decoding };

    ghost view = { λ d. record { held = d.held.items; failed = d.failed } };

    ghost invariant = { λ d. d.failed ≡ false → IsUnfinished d.held.items };
}

impl<A: Allocator + Copy> Decoder<A> {
    ghost use Rattle.std.specs.Prelude.{◌≡◌, [], length, false, if◌then◌else◌, IfOk, OnErr};
    ghost use Rattle.nbd_wire.specs.Grammar.{IsUnfinished};
    ghost use Rattle.nbd_wire.specs.Pieces.{Feeds, HandsOver};

    /// A decoder that was fed nothing.
    pub fn new(alloc: A) -> Decoder<A>
        ensures { result ≡ record { held = []; failed = false } }
    {
        Decoder {
            held: Vec::new(alloc),
            failed: false,
        }
    }

    /// How many bytes of an unfinished request there are; none once a call failed.
    pub fn rest(&self) -> usize
        ensures count { result ≡ (if self.now.failed then 0 else length self.now.held) }
        ensures unfinished { self.now.failed ≡ false → IsUnfinished self.now.held }
    {
        if self.failed { 0 } else { self.held.len() }
    }

    /// Takes the next piece, and appends each request that is whole then, those before a fault included.
    /// Once a call failed, each later one answers `Failed`.
    pub fn feed<B: Allocator>(
        &mut self,
        spares: &mut Spares<A>,
        piece: &[u8],
        out: &mut Vec<Request<A>, B>,
    ) -> Result<(), FeedFault>
        ensures { Feeds self.old piece.now self.new out.old.items out.new.items result }
    {
        if self.failed {
            return Err(FeedFault::Failed);
        }
        let outcome = gather(spares, &mut self.held, piece, out);
        self.failed = outcome.is_err();
        outcome
    }

    /// Hands over the WRITE that is held, where it is one of `least` bytes or more, so that the rest of its payload can go
    /// straight into its pages. The next piece is to begin behind it. Where memory is refused nothing changes.
    pub fn take_begun(
        &mut self,
        spares: &mut Spares<A>,
        least: usize,
    ) -> Result<Option<BegunWrite<A>>, NoMemory>
        ensures taken { IfOk result (HandsOver least self.old self.new) }
        ensures kept { OnErr result (self.new ≡ self.old) }
    {
        if self.failed {
            return Ok(None);
        }
        let begun = begin_write(spares, self.held.as_slice(), least)?;
        if begun.is_some() {
            self.held.clear();
        }
        Ok(begun)
    }
}
