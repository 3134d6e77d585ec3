//! `nbdq talk`: a script, and the conversation that a client holds by it.

ghost use Rattle.std.specs.Prelude.{◌≡◌, ◌≢◌, ◌⊎◌, IfOk, IsErr, codes};
ghost use Rattle.std.specs.Io.KnownBytes.{Appends};
ghost use Rattle.hex.specs.Hex.{decode_of};
ghost use Rattle.nbd_stream.specs.Streams.{WritesPart};
ghost use Rattle.nbd_scripts.specs.Told.{CountsRead, CountsWrite, CutShort};
ghost use Rattle.nbd_scripts.specs.Scripts.{TellsTalk};
ghost use Rattle.nbd_scripts.specs.Output.{is_gap, digits_of, printed, word_of, Prints};

use crate::head::{Head, read_head};
use crate::outcome::Outcome;
use crate::reading::read_whole;
use crate::refused::refuse_line;
use crate::writing::tell_text;
use hex::FromHexError;
use nbd_base::NoMemory;
use nbd_commands::Config;
use nbd_session::{End, talk};
use nbd_stream::Counted;
use std::alloc::Allocator;
use std::io::{Read, Write};

/// Reads a script, holds its conversation, and writes what the server says.
///
/// Where memory is refused, nothing is written.
pub fn talk_script<A: Allocator + Copy, R: Read, W: Write>(
    alloc: A,
    input: &mut Counted<R>,
    output: &mut Counted<W>,
) -> Outcome
    ensures told { TellsTalk
        (record {
          unread = R.remaining input.old.inner;
          left = R.remaining input.new.inner;
          old = W.contents output.old.inner;
          new = W.contents output.new.inner;
        }) result }
    ensures reads { CountsRead result input.old.failures input.new.failures }
    ensures writes { CountsWrite result output.old.failures output.new.failures }
{
    let script = match read_whole(alloc, input) {
        Ok(script) => script,
        Err(outcome) => return outcome,
    };
    match read_head(alloc, &script) {
        Head::Read(config, body) => converse(alloc, &config, body.text, output),
        Head::Refused(line, fault) => refuse_line(alloc, line, fault, output),
    }
}

/// Holds the conversation in which a client sends the bytes that the hex spells.
fn converse<A: Allocator + Copy, W: Write>(
    alloc: A,
    config: &Config<A>,
    body: &[u8],
    output: &mut Counted<W>,
) -> Outcome
    ensures done { result ≡ Outcome.Done → Prints config.now.exports body.now
        (W.contents output.old.inner) (W.contents output.new.inner) }
    ensures refused { result ≡ Outcome.Refused → IsErr (decode_of (digits_of body.now))
        × Appends (W.contents output.old.inner) (W.contents output.new.inner)
        (codes "hex refused\n") }
    ensures read { result ≢ Outcome.ReadFailed }
    ensures counted { CountsWrite result output.old.failures output.new.failures }
    ensures no_memory { result ≡ Outcome.NoMemory
        → W.contents output.new.inner ≡ W.contents output.old.inner }
    ensures write_failed { result ≡ Outcome.WriteFailed → CutShort
        (λ all. Prints config.now.exports body.now (W.contents output.old.inner) all
        ⊎ (IsErr (decode_of (digits_of body.now))
        × Appends (W.contents output.old.inner) all (codes "hex refused\n")))
        (W.contents output.old.inner) (W.contents output.new.inner) }
{
    let Ok(digits) = digits_of(alloc, body) else {
        return Outcome::NoMemory;
    };
    let bytes = match hex::decode(alloc, digits.as_slice()) {
        Ok(bytes) => bytes,
        Err(error) => return refuse_hex(&error, output),
    };
    let mut reader = Counted::new(bytes.as_slice());
    let mut writer = Counted::new(Vec::new(alloc));
    // The reads of a slice don't fail, and a vector refuses a write only for want of memory.
    let Ok(end) = talk(alloc, config, &mut reader, &mut writer) else {
        return Outcome::NoMemory;
    };
    match spelled(alloc, &writer.into_inner(), end) {
        Ok(text) => tell_text(&text, Outcome::Done, output),
        Err(NoMemory) => Outcome::NoMemory,
    }
}

/// Writes that the digits are none, or not of whole bytes, where that is why they weren't decoded.
fn refuse_hex<W: Write>(error: &FromHexError, output: &mut Counted<W>) -> Outcome
    ensures not_done { result ≢ Outcome.Done }
    ensures read { result ≢ Outcome.ReadFailed }
    ensures counted { CountsWrite result output.old.failures output.new.failures }
    ensures refused { result ≡ Outcome.Refused → (error.now ≢ FromHexError.OutOfMemory)
        × Appends (W.contents output.old.inner) (W.contents output.new.inner)
        (codes "hex refused\n") }
    ensures no_memory { result ≡ Outcome.NoMemory
        → W.contents output.new.inner ≡ W.contents output.old.inner }
    ensures write_failed { result ≡ Outcome.WriteFailed → (error.now ≢ FromHexError.OutOfMemory)
        × WritesPart (W.contents output.old.inner) (W.contents output.new.inner)
        (codes "hex refused\n") }
{
    match error {
        FromHexError::OutOfMemory => Outcome::NoMemory,
        _ => tell_text(b"hex refused\n", Outcome::Refused, output),
    }
}

/// What stands in a script's body but for what may stand between digits.
fn digits_of<A: Allocator + Copy>(alloc: A, body: &[u8]) -> Result<Vec<u8, A>, NoMemory>
    ensures { IfOk result (λ digits. digits.items ≡ digits_of body.now) }
{
    let mut digits = Vec::new(alloc);
    for &byte in body {
        if !is_gap(byte) {
            digits.push(byte)?;
        }
    }
    Ok(digits)
}

/// Whether a byte may stand between digits.
fn is_gap(byte: u8) -> bool
    ensures { result ≡ is_gap byte }
{
    matches!(byte, b' ' | b'\t' | b'\r' | b'\n')
}

/// The whole text of the output: what the server said in lines of 16 bytes, and how the conversation ended.
fn spelled<A: Allocator + Copy>(alloc: A, said: &[u8], end: End) -> Result<Vec<u8, A>, NoMemory>
    ensures { IfOk result (λ text. text.items ≡ printed said.now end) }
{
    let mut text = Vec::new(alloc);
    for row in said.chunks(16) {
        let digits = hex::encode(alloc, row)?;
        text.extend_from_slice(digits.as_bytes())?;
        text.push(b'\n')?;
    }
    text.extend_from_slice(b"end ")?;
    text.extend_from_slice(end_word(end).as_bytes())?;
    text.push(b'\n')?;
    Ok(text)
}

fn end_word(end: End) -> &'static str
    ensures { result.now ≡ word_of end }
{
    match end {
        End::Disc => "disc",
        End::Abort => "abort",
        End::NoExport => "no export",
        End::Over => "over",
        End::Cut => "cut",
        End::BadFlags => "bad flags",
        End::BadMagic => "bad magic",
        End::TooLong => "too long",
        End::TooMany => "too many",
        End::Worn => "worn",
    }
}
