//! Replies, as a writer gets them.
ghost use Rattle.std.specs.Prelude.{◌≡◌, OnOk, OnErr};
ghost use Rattle.std.specs.Io.KnownBytes.{Appends};
ghost use Rattle.nbd_wire.specs.Grammar.{reply_text};
ghost use Rattle.nbd_stream.specs.Streams.{Rises, WritesPart};

use crate::counted::Counted;
use crate::exact_io::{WriteFailed, put, put_payload};
use nbd_wire::{Reply, write_reply_head};
use std::alloc::Allocator;
use std::io::Write;

/// Writes a reply. It takes no memory of its own.
pub fn put_reply<A: Allocator, O: Write>(
    reply: &Reply<A>,
    writer: &mut Counted<O>,
) -> Result<(), WriteFailed>
    ensures ok { OnOk result (Appends (O.contents writer.old.inner) (O.contents writer.new.inner)
        (reply_text reply.now)) }
    ensures kept { OnOk result (writer.new.failures ≡ writer.old.failures) }
    ensures part { OnErr result (WritesPart (O.contents writer.old.inner)
        (O.contents writer.new.inner) (reply_text reply.now)) }
    ensures failed { OnErr result (Rises writer.old.failures writer.new.failures) }
{
    match put(writer, &write_reply_head(reply.error(), reply.cookie())) {
        Ok(()) => put_payload(writer, reply.content()),
        Err(failed) => Err(failed),
    }
}
