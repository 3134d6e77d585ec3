ghost use Rattle.std.specs.Prelude.{◌≡◌, [], OnOk, IsErrOf};
ghost use Rattle.std.specs.Int.{w32, to_be_bytes};
ghost use Rattle.nbd_stream.specs.Streams.{Rises};
ghost use Rattle.nbd_session.specs.Outcomes.{Converses};
ghost use Rattle.nbd_session.specs.Conversation.{Handshake, IsEntryTold, HagglesOn};
ghost use Rattle.nbd_session.specs.Options.{MayAnswer, entry_after};
ghost use Rattle.nbd_session.specs.Haggling.{Answers};
ghost use Rattle.nbd_session.specs.Askings.{Asks, AsksBehind};
ghost use Rattle.nbd_base.specs.Logs.{Notes};
ghost use Rattle.nbd_options.specs.Asking.{asked_by};

use crate::option_input::{Offer, read_option};
use crate::outcomes::{End, Entry, TalkFault};
use nbd_options::{
    Attach, Attached, ExportTable, Haggle, HaggleEnd, HeadFault, Next, greeting, no_zeroes, said,
};
use nbd_stream::{Counted, Filled, fill, put};
use std::alloc::Allocator;
use std::io::{Read, Write};

/// Holds the handshake of one client: the greeting, its flags, and its options up to the choice of an export.
///
/// `attach` is asked once at each successful GO and EXPORT_NAME, before any reply to it is written.
pub fn haggle<A: Allocator + Copy, R: Read, W: Write, T: Attach>(
    alloc: A,
    table: &ExportTable<A>,
    reader: &mut Counted<R>,
    writer: &mut Counted<W>,
    attach: &mut T,
) -> Result<Entry, TalkFault>
    ensures conversation { Converses IsEntryTold (Handshake T.may table.now)
        (R.remaining reader.old.inner) (R.remaining reader.new.inner)
        (W.contents writer.old.inner) (W.contents writer.new.inner) result }
    ensures read_failed { IsErrOf result TalkFault.ReadFailed
        → Rises reader.old.failures reader.new.failures }
    ensures write_failed { IsErrOf result TalkFault.WriteFailed
        → Rises writer.old.failures writer.new.failures }
    ensures kept { OnOk result ((reader.new.failures ≡ reader.old.failures)
        × (writer.new.failures ≡ writer.old.failures)) }
    ensures asked { Asks T.may table.now (T.askings attach.old) (T.askings attach.new)
        (R.remaining reader.old.inner) (R.remaining reader.new.inner) result }
{
    put(writer, &greeting())?;
    let mut bytes = [0; 4];
    match fill(reader, &mut bytes) {
        Filled::Whole => {}
        Filled::Ended(0) => return Ok(Entry::Out(End::Over)),
        Filled::Ended(_) => return Ok(Entry::Out(End::Cut)),
        Filled::Failed(_) => return Err(TalkFault::ReadFailed),
    }
    let Some(bare) = no_zeroes(flags_of(&bytes)) else {
        return Ok(Entry::Out(End::BadFlags));
    };
    options(alloc, table, bare, reader, writer, attach)
}

/// The flags that a client sends.
fn flags_of(bytes: &[u8; 4]) -> u32
    ensures { bytes.now ≡ to_be_bytes w32 result }
{
    u32::from_be_bytes(*bytes)
}

/// Answers options, from the first to where haggling ends.
fn options<A: Allocator + Copy, R: Read, W: Write, T: Attach>(
    alloc: A,
    table: &ExportTable<A>,
    bare: bool,
    reader: &mut Counted<R>,
    writer: &mut Counted<W>,
    attach: &mut T,
) -> Result<Entry, TalkFault>
    ensures conversation { Converses IsEntryTold (HagglesOn T.may table.now bare 0)
        (R.remaining reader.old.inner) (R.remaining reader.new.inner)
        (W.contents writer.old.inner) (W.contents writer.new.inner) result }
    ensures read_failed { IsErrOf result TalkFault.ReadFailed
        → Rises reader.old.failures reader.new.failures }
    ensures write_failed { IsErrOf result TalkFault.WriteFailed
        → Rises writer.old.failures writer.new.failures }
    ensures kept { OnOk result ((reader.new.failures ≡ reader.old.failures)
        × (writer.new.failures ≡ writer.old.failures)) }
    ensures asked { AsksBehind T.may table.now bare [] (T.askings attach.old) (T.askings attach.new)
        (R.remaining reader.old.inner) (R.remaining reader.new.inner) result }
{
    let mut haggle = Haggle::new(table);
    loop {
        let (number, content) = match read_option(alloc, &mut haggle, reader)? {
            Offer::Whole(number, content) => (number, content),
            Offer::Stop(end) => return Ok(Entry::Out(end)),
        };
        if let Some(end) = answer(alloc, table, bare, number, &content, writer, attach)? {
            return Ok(entry_after(end));
        }
    }
}

/// Answers one option, and tells how haggling ends by it, if it does. A session is asked for before anything is written.
fn answer<A: Allocator + Copy, W: Write, T: Attach>(
    alloc: A,
    table: &ExportTable<A>,
    bare: bool,
    number: u32,
    content: &[u8],
    writer: &mut Counted<W>,
    attach: &mut T,
) -> Result<Option<HaggleEnd>, TalkFault>
    ensures answered { Answers T.may table.now bare
        (record { number = number; content = content.now })
        (T.askings attach.old) (T.askings attach.new)
        (W.contents writer.old.inner) (W.contents writer.new.inner) result }
    ensures failed { IsErrOf result TalkFault.WriteFailed
        → Rises writer.old.failures writer.new.failures }
    ensures kept { OnOk result (writer.new.failures ≡ writer.old.failures) }
{
    let mut haggle = Haggle::new(table);
    let next = haggle.next(number, content);
    let attached = attached_to(next, attach);
    let (replies, next) = haggle.option(alloc, number, content)?;
    let (text, end) = said(alloc, table, bare, &replies, next, attached)?;
    put(writer, &text)?;
    Ok(end)
}

/// Asks for a session, where the client goes to an export.
#[tactic(auto, using(nbd_base::proofs::Logs::notes_nothing))]
fn attached_to<T: Attach>(next: Next, attach: &mut T) -> Attached
    ensures may { MayAnswer T.may next result }
    ensures noted { Notes (T.askings attach.old) (T.askings attach.new) (asked_by next result) }
{
    match next {
        Next::Go(export) | Next::ByName(export) => attach.attach(export),
        Next::Again | Next::Abort | Next::Close => Attached::Given,
    }
}

/// How the handshake ended, by how haggling did.
fn entry_after(end: HaggleEnd) -> Entry
    ensures { result ≡ entry_after end }
{
    match end {
        HaggleEnd::Entered(export) => Entry::In(export),
        HaggleEnd::Refused => Entry::Refused,
        HaggleEnd::Aborted => Entry::Out(End::Abort),
        HaggleEnd::NoExport => Entry::Out(End::NoExport),
        HaggleEnd::BadFlags => Entry::Out(End::BadFlags),
        HaggleEnd::BadHead(HeadFault::BadMagic) => Entry::Out(End::BadMagic),
        HaggleEnd::BadHead(HeadFault::TooMany) => Entry::Out(End::TooMany),
        HaggleEnd::BadHead(HeadFault::TooLong) => Entry::Out(End::TooLong),
    }
}
