ghost use Rattle.std.specs.Prelude.{◌≡◌, ℕ, ◌++◌, ◌+◌, ◌^◌, ◌<◌, ◌≤◌, [], length, IfOk, IsErrOf};
ghost use Rattle.nbd_wire.specs.Grammar.{option_head_text};
ghost use Rattle.nbd_stream.specs.Streams.{Rises};
ghost use Rattle.nbd_session.specs.Haggling.{TakesOption, IsSeen};

use crate::outcomes::{End, TalkFault};
use nbd_options::{Haggle, HeadFault};
use nbd_stream::{Counted, Filled, fill};
use std::alloc::Allocator;
use std::io::Read;

/// What stands at an option's place.
#[derive(Drop)]
pub enum Offer<A: Allocator> {
    /// An option's number and its data.
    Whole(u32, Vec<u8, A>),
    Stop(End),
}

/// Reads one option, or what ends the handshake in its place.
pub fn read_option<A: Allocator + Copy, R: Read>(
    alloc: A,
    haggle: &mut Haggle<'_, A>,
    reader: &mut Counted<R>,
) -> Result<Offer<A>, TalkFault>
    ensures taken { TakesOption haggle.old.seen [] (R.remaining reader.old.inner)
        (R.remaining reader.new.inner) result }
    ensures seen { IsSeen haggle.old.seen haggle.new.seen result }
    ensures table { haggle.new.table ≡ haggle.old.table }
    ensures failed { IsErrOf result TalkFault.ReadFailed
        → Rises reader.old.failures reader.new.failures }
    ensures kept { IfOk result (λ _. reader.new.failures ≡ reader.old.failures) }
{
    let mut bytes = [0; 16];
    match fill(reader, &mut bytes) {
        Filled::Whole => {}
        Filled::Ended(0) => return Ok(Offer::Stop(End::Over)),
        Filled::Ended(_) => return Ok(Offer::Stop(End::Cut)),
        Filled::Failed(_) => return Err(TalkFault::ReadFailed),
    }
    match haggle.head(&bytes) {
        Err(HeadFault::BadMagic) => Ok(Offer::Stop(End::BadMagic)),
        Err(HeadFault::TooMany) => Ok(Offer::Stop(End::TooMany)),
        Err(HeadFault::TooLong) => Ok(Offer::Stop(End::TooLong)),
        Ok((number, count)) => read_content(alloc, number, count, reader),
    }
}

/// Reads an option's data.
fn read_content<A: Allocator + Copy, R: Read>(
    alloc: A,
    number: u32,
    count: u32,
    reader: &mut Counted<R>,
) -> Result<Offer<A>, TalkFault>
    requires { count ≤ 65536 }
    ensures taken { (seen : ℕ) → seen < 1000 → TakesOption seen (option_head_text number count)
        (R.remaining reader.old.inner) (R.remaining reader.new.inner) result }
    ensures seen { (seen : ℕ) → IsSeen seen (seen + 1) result }
    ensures failed { IsErrOf result TalkFault.ReadFailed
        → Rises reader.old.failures reader.new.failures }
    ensures kept { IfOk result (λ _. reader.new.failures ≡ reader.old.failures) }
{
    if count == 0 {
        return Ok(Offer::Whole(number, Vec::new(alloc)));
    }
    let Ok(mut content) = vec![in alloc; 0; count as usize] else {
        return Err(TalkFault::NoMemory);
    };
    match fill(reader, &mut content) {
        Filled::Whole => Ok(Offer::Whole(number, content)),
        Filled::Ended(_) => Ok(Offer::Stop(End::Cut)),
        Filled::Failed(_) => Err(TalkFault::ReadFailed),
    }
}
