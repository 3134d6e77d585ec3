//! The way of a session's replies: those that were taken, and where they are written.
ghost use Rattle.std.specs.Prelude.{◌≡◌, ◌≤◌, ◌<◌, ◌^◌, ◌-◌, [], length, min, OnOk, OnErr};
ghost use Rattle.std.specs.Io.KnownBytes.{Appends};
ghost use Rattle.nbd_stream.specs.Streams.{Rises, WritesPart};
ghost use Rattle.session_turns.specs.Outgoing.{texts_of, data_of};

use crate::ready_reply::{REPLY_HEAD_BYTES, ReadyReply, put_ready};
use crate::taking::{Stop, take_one, take_replies};
use eligibility::Eligibility;
use export_store::Image;
use nbd_base::NoMemory;
use nbd_stream::{Counted, WriteFailed, put_reply};
use nbd_wire::Reply;
use server_core::SessionId;
use server_lock::{Booked, Pass};
use std::alloc::Allocator;
use std::io;
use std::io::Write;
use std::marker::Model;
use std::sync::ledger::Ledger;

/// The replies of a session that were taken and aren't written yet, the oldest first, and where they are written. Once a write failed
/// nothing is written any more: what the client got is a beginning of what was taken.
#[derive(Drop)]
pub struct ReplyWriter<W: Write + Drop, A: Allocator> {
    waiting: Vec<Reply<A>, A>,
    writer: Counted<W>,
    broken: bool,
}

impl<W: Write + Drop, A: Allocator> Model for ReplyWriter<W, A> {
    ghost use Rattle.std.specs.Vec.{vec_capacity};
    ghost use Rattle.session_turns.specs.Outgoing.{Outgoing};

    ghost Value = { Outgoing };

    ghost view = { λ r.
        record {
          text = W.contents r.writer.inner;
          failures = r.writer.failures;
          waiting = r.waiting.items;
          room = vec_capacity r.waiting;
          broken = r.broken;
        } };
}

/// Writes replies one behind another.
fn put_all<W: Write, A: Allocator>(
    replies: &[Reply<A>],
    writer: &mut Counted<W>,
) -> Result<(), WriteFailed>
    ensures ok { OnOk result (Appends (W.contents writer.old.inner) (W.contents writer.new.inner)
        (texts_of replies.now)) }
    ensures kept { OnOk result (writer.new.failures ≡ writer.old.failures) }
    ensures part { OnErr result (WritesPart (W.contents writer.old.inner)
        (W.contents writer.new.inner) (texts_of replies.now)) }
    ensures failed { OnErr result (Rises writer.old.failures writer.new.failures) }
{
    let mut at = 0;
    while at < replies.len() {
        match put_reply(&replies[at], writer) {
            Ok(()) => at += 1,
            Err(failed) => return Err(failed),
        }
    }
    Ok(())
}

/// How many bytes of data replies have. The count stops at its greatest value.
#[tactic(auto, using(crate::proofs::ReplyTexts::data_more))]
fn data_in<A: Allocator>(replies: &[Reply<A>]) -> usize
    ensures { result ≡ min (length (data_of replies.now)) (2 ^ 64 - 1) }
{
    let mut data = 0usize;
    let mut at = 0usize;
    while at < replies.len() {
        data = data.saturating_add(replies[at].content().len());
        at += 1;
    }
    data
}

impl<W: Write + Drop, A: Allocator> ReplyWriter<W, A> {
    ghost use Rattle.std.specs.Prelude.{◌≡◌, ◌≤◌, ◌+◌, ◌-◌, ◌^◌, [], length, min, IfOk, OnOk, OnErr};
    ghost use Rattle.std.specs.Io.KnownBytes.{Keeps};
    ghost use Rattle.nbd_stream.specs.Streams.{Rises};
    ghost use Rattle.session_turns.specs.Taking.{Takes, TakesOne};
    ghost use Rattle.session_turns.specs.Outgoing.{IsFresh, Writes, texts_of, data_of, ready_text};

    /// No reply was taken yet. There is room for so many at least, and it never grows.
    pub fn new(alloc: A, writer: W, room: usize) -> Result<ReplyWriter<W, A>, NoMemory>
        ensures { IfOk result (IsFresh (W.contents writer) room) }
    {
        let waiting = Vec::with_capacity(alloc, room)?;
        Ok(ReplyWriter {
            waiting,
            writer: Counted::new(writer),
            broken: false,
        })
    }

    /// The writer itself. The replies that wait are lost.
    pub fn into_writer(self) -> Counted<W>
        ensures text { W.contents result.inner ≡ self.text }
        ensures failures { result.failures ≡ self.failures }
    {
        let ReplyWriter {
            waiting: _,
            writer,
            broken: _,
        } = self;
        writer
    }

    /// How many replies were taken and aren't written.
    pub fn unwritten(&self) -> usize
        ensures { result ≡ length self.now.waiting }
    {
        self.waiting.len()
    }

    /// How many bytes of data these have. The count stops at its greatest value.
    pub fn data(&self) -> usize
        ensures { result ≡ min (length (data_of self.now.waiting)) (2 ^ 64 - 1) }
    {
        data_in(self.waiting.as_slice())
    }

    /// How many bytes these have with their heads. The count stops at its greatest value.
    #[tactic(auto, using(crate::proofs::ReplyTexts::texts_length))]
    pub fn bytes(&self) -> usize
        ensures { result ≡ min (length (texts_of self.now.waiting)) (2 ^ 64 - 1) }
    {
        let heads = self.waiting.len().saturating_mul(REPLY_HEAD_BYTES);
        self.data().saturating_add(heads)
    }

    /// Takes the session's replies, until there is no room for more, or a take gives none.
    pub fn take<L: Ledger, I: Image<Alloc = A>, E: Eligibility<Alloc = A>>(
        &mut self,
        booked: &mut Booked<L, I, E>,
        pass: &mut Pass<L>,
        session: SessionId,
    ) -> Stop
        ensures takes { Takes A booked.old pass.old session self.old.waiting self.old.room result
            self.new.waiting booked.new pass.new }
        ensures rest { self.new ≡ record self.old { waiting = self.new.waiting } }
    {
        take_replies(booked, pass, session, &mut self.waiting)
    }

    /// Takes the session's oldest reply, where there is room for it. `Full` where one was taken, too.
    pub fn take_one<L: Ledger, I: Image<Alloc = A>, E: Eligibility<Alloc = A>>(
        &mut self,
        booked: &mut Booked<L, I, E>,
        pass: &mut Pass<L>,
        session: SessionId,
    ) -> Stop
        ensures server { Takes A booked.old pass.old session self.old.waiting (min self.old.room
            (length self.old.waiting + 1)) result self.new.waiting booked.new pass.new }
        ensures turn { TakesOne pass.old session self.old.waiting self.old.room result
            self.new.waiting pass.new }
        ensures rest { self.new ≡ record self.old { waiting = self.new.waiting } }
    {
        take_one(booked, pass, session, &mut self.waiting)
    }

    /// Writes the replies that were taken. Where a write fails, or one failed before, the connection is over.
    pub fn write(&mut self) -> Result<(), WriteFailed>
        ensures { Writes (texts_of self.old.waiting) [] self.old self.new result }
    {
        if self.broken {
            return Err(WriteFailed);
        }
        match put_all(self.waiting.as_slice(), &mut self.writer) {
            Ok(()) => {
                self.waiting.clear();
                Ok(())
            }
            Err(failed) => {
                self.broken = true;
                Err(failed)
            }
        }
    }

    /// Writes a reply that was taken by itself, before those that wait.
    pub fn write_ready(&mut self, ready: &ReadyReply<A>) -> Result<(), WriteFailed>
        ensures { Writes (ready_text ready.now) self.old.waiting self.old self.new result }
    {
        if self.broken {
            return Err(WriteFailed);
        }
        match put_ready(ready, &mut self.writer) {
            Ok(()) => Ok(()),
            Err(failed) => {
                self.broken = true;
                Err(failed)
            }
        }
    }

    /// Sends what was written. A writer that keeps what it couldn't send may be asked again.
    pub fn send(&mut self) -> io::Result<()>
        ensures text { Keeps self.old.text self.new.text }
        ensures failed { OnErr result (Rises self.old.failures self.new.failures) }
        ensures kept { OnOk result (self.new.failures ≡ self.old.failures) }
        ensures rest { self.new
            ≡ record self.old { text = self.new.text; failures = self.new.failures } }
    {
        self.writer.flush()
    }
}
