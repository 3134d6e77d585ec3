ghost use Rattle.std.specs.Prelude.{◌≡◌, OnOk, OnErr, IsErrOf};
ghost use Rattle.std.specs.Io.KnownBytes.{Appends};
ghost use Rattle.nbd_wire.specs.Grammar.{reply_text};
ghost use Rattle.nbd_commands.specs.Terms.{terms_of};
ghost use Rattle.nbd_stream.specs.Streams.{Rises, WritesPart};
ghost use Rattle.nbd_session.specs.Requests.{Serves, opened};
ghost use Rattle.nbd_session.specs.Plainly.{IsIdle};
ghost use Rattle.nbd_session.specs.Outcomes.{Converses, IsTold, end_by};

use crate::outcomes::{End, TalkFault};
use crate::serving::{open, serve};
use export_store::{Image, Paged};
use lone_export::Lone;
use nbd_commands::ExportConfig;
use nbd_stream::{Buffered, Counted, Ending, Frame, Frames, is_disc, put};
use nbd_wire::{Reply, write_reply};
use std::alloc::Allocator;
use std::io::Write;

/// From the choice of an export to the end.
pub fn transmit<A: Allocator + Copy, R: Buffered, W: Write>(
    alloc: A,
    export: &ExportConfig<A>,
    reader: &mut Counted<R>,
    writer: &mut Counted<W>,
) -> Result<End, TalkFault>
    ensures conversation { Converses IsTold
        (Serves (terms_of export.now) (opened (terms_of export.now)))
        (R.remaining reader.old.inner) (R.remaining reader.new.inner)
        (W.contents writer.old.inner) (W.contents writer.new.inner) result }
    ensures read_failed { IsErrOf result TalkFault.ReadFailed
        → Rises reader.old.failures reader.new.failures }
    ensures write_failed { IsErrOf result TalkFault.WriteFailed
        → Rises writer.old.failures writer.new.failures }
    ensures read { OnOk result (reader.new.failures ≡ reader.old.failures) }
    ensures written { OnOk result (writer.new.failures ≡ writer.old.failures) }
{
    // Its depth and its window are 1 at least.
    let _ = export.window();
    let mut lone: Lone<Paged<A>> = Lone::new(alloc, export, 1)?;
    open(&mut lone)?;
    requests(alloc, &mut lone, reader, writer)
}

/// Answers requests, from the first to the end.
fn requests<I: Image, R: Buffered, W: Write>(
    alloc: I::Alloc,
    lone: &mut Lone<I>,
    reader: &mut Counted<R>,
    writer: &mut Counted<W>,
) -> Result<End, TalkFault>
    requires idle { IsIdle lone.old }
    requires opened { lone.old.state ≡ opened lone.old.terms }
    ensures conversation { Converses IsTold (Serves lone.old.terms (opened lone.old.terms))
        (R.remaining reader.old.inner) (R.remaining reader.new.inner)
        (W.contents writer.old.inner) (W.contents writer.new.inner) result }
    ensures read_failed { IsErrOf result TalkFault.ReadFailed
        → Rises reader.old.failures reader.new.failures }
    ensures write_failed { IsErrOf result TalkFault.WriteFailed
        → Rises writer.old.failures writer.new.failures }
    ensures read { OnOk result (reader.new.failures ≡ reader.old.failures) }
    ensures written { OnOk result (writer.new.failures ≡ writer.old.failures) }
{
    let mut frames = Frames::new(alloc);
    loop {
        let request = match frames.next(reader) {
            Frame::Whole(request) => request,
            Frame::Ended(ending) => return end_of(ending),
        };
        if is_disc(request.head()) {
            return Ok(End::Disc);
        }
        let Some(reply) = serve(lone, request)? else {
            return Ok(End::Worn);
        };
        say(alloc, reply, writer)?;
    }
}

/// How the conversation ends where the reading of its requests ended so.
fn end_of(ending: Ending) -> Result<End, TalkFault>
    ensures { result ≡ end_by ending }
{
    match ending {
        Ending::Over => Ok(End::Over),
        Ending::Cut => Ok(End::Cut),
        Ending::BadMagic => Ok(End::BadMagic),
        Ending::TooLong => Ok(End::TooLong),
        Ending::ReadFailed => Err(TalkFault::ReadFailed),
        Ending::NoMemory => Err(TalkFault::NoMemory),
    }
}

/// Writes a reply.
fn say<A: Allocator + Copy, W: Write>(
    alloc: A,
    reply: Reply<A>,
    writer: &mut Counted<W>,
) -> Result<(), TalkFault>
    ensures said { OnOk result
        (Appends (W.contents writer.old.inner) (W.contents writer.new.inner) (reply_text reply)) }
    ensures kept { OnOk result (writer.new.failures ≡ writer.old.failures) }
    ensures part { OnErr result (WritesPart (W.contents writer.old.inner)
        (W.contents writer.new.inner) (reply_text reply)) }
    ensures no_read { IsErrOf result TalkFault.ReadFailed → ⊥ }
    ensures failed { IsErrOf result TalkFault.WriteFailed
        → Rises writer.old.failures writer.new.failures }
{
    let mut text = Vec::new(alloc);
    write_reply(&reply, &mut text)?;
    put(writer, &text)?;
    Ok(())
}
