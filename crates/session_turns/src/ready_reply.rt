//! A reply that is taken and made ready by one thread, and written by another.
ghost use Rattle.std.specs.Prelude.{◌≡◌, ◌<◌, ◌-◌, length, OnOk, OnErr};
ghost use Rattle.std.specs.Io.KnownBytes.{Appends};
ghost use Rattle.nbd_wire.specs.Grammar.{reply_text};
ghost use Rattle.nbd_stream.specs.Streams.{Rises, WritesPart};
ghost use Rattle.session_turns.specs.Outgoing.{ready_text};

use nbd_stream::{Counted, WriteFailed, put, put_reply};
use nbd_wire::Reply;
use std::alloc::Allocator;
use std::io::Write;

/// How many bytes come before the data of a reply (NBD protocol, "Simple reply message").
pub const REPLY_HEAD_BYTES: usize = 16;

/// A reply that is ready to be written.
#[derive(Drop)]
pub enum ReadyReply<A: Allocator> {
    /// Its text.
    Text(Vec<u8, A>),
    /// A reply whose text wasn't made.
    Whole(Reply<A>),
}

impl<A: Allocator> ReadyReply<A> {
    /// The text of a reply, in memory whose bytes are lost. Where the reply has more than `most` bytes of data, or the memory
    /// can't grow to its text, it is the reply itself.
    pub fn of(reply: Reply<A>, memory: Vec<u8, A>, most: usize) -> ReadyReply<A>
        ensures text { ready_text result ≡ reply_text reply }
        ensures long { most < length reply.content → result ≡ ReadyReply.Whole reply }
    {
        if reply.content().len() > most {
            return ReadyReply::Whole(reply);
        }
        let mut text = memory;
        text.clear();
        let mut writer = Counted::new(text);
        match put_reply(&reply, &mut writer) {
            Ok(()) => ReadyReply::Text(writer.into_inner()),
            Err(_) => ReadyReply::Whole(reply),
        }
    }

    /// How many bytes of data it has.
    pub fn data(&self) -> usize
        ensures { result ≡ length (ready_text self.now) - 16 }
    {
        match self {
            ReadyReply::Text(text) => text.len().saturating_sub(REPLY_HEAD_BYTES),
            ReadyReply::Whole(reply) => reply.content().len(),
        }
    }
}

/// Writes a reply that is ready.
pub fn put_ready<A: Allocator, W: Write>(
    ready: &ReadyReply<A>,
    writer: &mut Counted<W>,
) -> Result<(), WriteFailed>
    ensures ok { OnOk result (Appends (W.contents writer.old.inner) (W.contents writer.new.inner)
        (ready_text ready.now)) }
    ensures kept { OnOk result (writer.new.failures ≡ writer.old.failures) }
    ensures part { OnErr result (WritesPart (W.contents writer.old.inner)
        (W.contents writer.new.inner) (ready_text ready.now)) }
    ensures failed { OnErr result (Rises writer.old.failures writer.new.failures) }
{
    match ready {
        ReadyReply::Text(text) => put(writer, text.as_slice()),
        ReadyReply::Whole(reply) => put_reply(reply, writer),
    }
}
