ghost use Rattle.std.specs.Prelude.{◌≡◌, ◌++◌, ◌+◌, ◌^◌, ◌<◌, ◌≤◌, length, IfOk, OnOk, OnErr};
ghost use Rattle.std.specs.Io.KnownBytes.{Appends};
ghost use Rattle.nbd_stream.specs.Streams.{Rises, FillsWith, WritesPart};

use crate::counted::Counted;
use payload::Payload;
use std::alloc::Allocator;
use std::io::{Read, Write};

/// How a buffer was filled.
#[derive(Clone, Copy, Debug)]
pub enum Filled {
    Whole,
    /// The input ended after so many bytes.
    Ended(usize),
    /// A read failed after so many bytes.
    Failed(usize),
}

/// Fills a buffer, as far as there are bytes.
pub fn fill<R: Read>(reader: &mut Counted<R>, buf: &mut [u8]) -> Filled
    ensures { FillsWith (R.remaining reader.old.inner) (R.remaining reader.new.inner)
        reader.old.failures reader.new.failures buf.new result }
{
    let mut at = 0;
    while at < buf.len() {
        match reader.read(&mut buf[at..]) {
            Ok(0) => return Filled::Ended(at),
            Ok(count) => at += count,
            Err(_) => return Filled::Failed(at),
        }
    }
    Filled::Whole
}

/// A write failed.
#[derive(Clone, Copy, Debug)]
pub struct WriteFailed;

/// Writes all of the text.
pub fn put<W: Write>(writer: &mut Counted<W>, text: &[u8]) -> Result<(), WriteFailed>
    ensures ok { OnOk result
        (Appends (W.contents writer.old.inner) (W.contents writer.new.inner) text.now) }
    ensures kept { OnOk result (writer.new.failures ≡ writer.old.failures) }
    ensures err { OnErr result
        (WritesPart (W.contents writer.old.inner) (W.contents writer.new.inner) text.now) }
    ensures failed { OnErr result (Rises writer.old.failures writer.new.failures) }
{
    let mut at = 0;
    while at < text.len() {
        match writer.write(&text[at..]) {
            Ok(0) => return Err(WriteFailed),
            Ok(count) => at += count,
            Err(_) => return Err(WriteFailed),
        }
    }
    Ok(())
}

/// Writes all of a payload, part by part.
pub fn put_payload<A: Allocator, W: Write>(
    writer: &mut Counted<W>,
    payload: &Payload<A>,
) -> Result<(), WriteFailed>
    ensures ok { OnOk result
        (Appends (W.contents writer.old.inner) (W.contents writer.new.inner) payload.now) }
    ensures kept { OnOk result (writer.new.failures ≡ writer.old.failures) }
    ensures err { OnErr result
        (WritesPart (W.contents writer.old.inner) (W.contents writer.new.inner) payload.now) }
    ensures failed { OnErr result (Rises writer.old.failures writer.new.failures) }
{
    let mut at = 0;
    while at < payload.len() {
        let part = payload.from(at);
        match put(writer, part) {
            Ok(()) => at += part.len(),
            Err(failed) => return Err(failed),
        }
    }
    Ok(())
}
