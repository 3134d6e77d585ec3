//! `nbdq check`: a configuration file, and what it configures.

ghost use Rattle.std.specs.Prelude.{◌≡◌, ◌++◌, IfOk, IfErr, OnOk, IsErrOf};
ghost use Rattle.nbd_scripts.specs.Told.{CountsRead, CountsWrite, Writes};
ghost use Rattle.nbdq_cli.specs.Checked.{disk_text, export_line, inflight_line, mode_word, offer_text, queue_text, rates_text, refusal_line, Checks, ChecksPart, Configures};

use nbd_base::NoMemory;
use nbd_commands::{Config, ExportConfig};
use nbd_config::{FileError, FileRefusal, Place, read_config};
use nbd_scripts::{Outcome, read_whole, tell_text};
use nbd_stream::Counted;
use nbd_text::or_no_memory;
use std::alloc::{Allocator, Global};
use std::io::{Read, Write};

/// Reads a configuration file to its end, and writes what it configures or why it is refused.
///
/// The parsed text lies in `heap` for the time of the call, all else in `alloc`. Where memory is refused, nothing is written.
pub fn check_text<A: Allocator + Copy, R: Read, W: Write>(
    heap: Global,
    alloc: A,
    input: &mut Counted<R>,
    output: &mut Counted<W>,
) -> Outcome
    ensures done { result ≡ Outcome.Done → Checks (R.remaining input.old.inner) (R.remaining
        input.new.inner) (W.contents output.old.inner) (W.contents output.new.inner) result }
    ensures refused { result ≡ Outcome.Refused → Checks (R.remaining input.old.inner) (R.remaining
        input.new.inner) (W.contents output.old.inner) (W.contents output.new.inner) result }
    ensures no_memory { result ≡ Outcome.NoMemory
        → W.contents output.new.inner ≡ W.contents output.old.inner }
    ensures read_failed { result ≡ Outcome.ReadFailed
        → W.contents output.new.inner ≡ W.contents output.old.inner }
    ensures write_failed { result ≡ Outcome.WriteFailed → ChecksPart (R.remaining input.old.inner)
        (R.remaining input.new.inner) (W.contents output.old.inner) (W.contents output.new.inner) }
    ensures reads { CountsRead result input.old.failures input.new.failures }
    ensures writes { CountsWrite result output.old.failures output.new.failures }
{
    match read_offer(heap, alloc, input, output) {
        Ok(config) => tell_config(alloc, &config, output),
        Err(outcome) => outcome,
    }
}

/// What a configuration file configures, or how the command went without it. Where it is refused, the refusal is written.
///
/// The parsed text lies in `heap` for the time of the call, all else in `alloc`. Where memory is refused, nothing is written.
pub fn read_offer<A: Allocator + Copy, R: Read, W: Write>(
    heap: Global,
    alloc: A,
    input: &mut Counted<R>,
    output: &mut Counted<W>,
) -> Result<Config<A>, Outcome>
    ensures read { IfOk result (λ config. Configures (R.remaining input.old.inner) (R.remaining
        input.new.inner) (W.contents output.old.inner) (W.contents output.new.inner) config) }
    ensures kept { OnOk result ((input.new.failures ≡ input.old.failures)
        × (output.new.failures ≡ output.old.failures)) }
    ensures refused { IsErrOf result Outcome.Refused
        → Checks (R.remaining input.old.inner) (R.remaining input.new.inner)
        (W.contents output.old.inner) (W.contents output.new.inner) Outcome.Refused }
    ensures no_memory { IsErrOf result Outcome.NoMemory
        → W.contents output.new.inner ≡ W.contents output.old.inner }
    ensures read_failed { IsErrOf result Outcome.ReadFailed
        → W.contents output.new.inner ≡ W.contents output.old.inner }
    ensures write_failed { IsErrOf result Outcome.WriteFailed
        → ChecksPart (R.remaining input.old.inner) (R.remaining input.new.inner)
        (W.contents output.old.inner) (W.contents output.new.inner) }
    ensures undone { IsErrOf result Outcome.Done → ⊥ }
    ensures reads { IfErr result (λ went. CountsRead went input.old.failures input.new.failures) }
    ensures writes { IfErr result (λ went.
        CountsWrite went output.old.failures output.new.failures) }
{
    let text = match read_whole(alloc, input) {
        Ok(text) => text,
        Err(outcome) => return Err(outcome),
    };
    match read_config(heap, alloc, text.as_slice()) {
        Ok(config) => Ok(config),
        Err(FileError::Refused(refusal)) => Err(tell_refusal(alloc, refusal, output)),
        Err(FileError::NoMemory) => Err(Outcome::NoMemory),
    }
}

/// Writes what is configured.
fn tell_config<A: Allocator + Copy, W: Write>(
    alloc: A,
    config: &Config<A>,
    output: &mut Counted<W>,
) -> Outcome
    ensures told { Writes (offer_text config.now) Outcome.Done (W.contents output.old.inner)
        (W.contents output.new.inner) result }
    ensures counted { CountsWrite result output.old.failures output.new.failures }
{
    let mut text = Vec::new(alloc);
    match write_config(config, &mut text) {
        Ok(()) => tell_text(&text, Outcome::Done, output),
        Err(NoMemory) => Outcome::NoMemory,
    }
}

/// Writes what is refused, and where.
fn tell_refusal<A: Allocator, W: Write>(
    alloc: A,
    refusal: FileRefusal,
    output: &mut Counted<W>,
) -> Outcome
    ensures told { Writes (refusal_line refusal) Outcome.Refused (W.contents output.old.inner)
        (W.contents output.new.inner) result }
    ensures counted { CountsWrite result output.old.failures output.new.failures }
{
    let mut text = Vec::new(alloc);
    match write_refusal(refusal, &mut text) {
        Ok(()) => tell_text(&text, Outcome::Refused, output),
        Err(NoMemory) => Outcome::NoMemory,
    }
}

/// Writes what is configured: a line for the whole, and one for each export in order.
fn write_config<A: Allocator + Copy>(
    config: &Config<A>,
    text: &mut Vec<u8, A>,
) -> Result<(), NoMemory>
    ensures { OnOk result (text.new.items ≡ text.old.items ++ offer_text config.now) }
{
    write_inflight(config.inflight(), text)?;
    let exports = config.exports();
    for (at, export) in exports.iter().enumerate() {
        write_export(at, export, text)?;
    }
    Ok(())
}

/// Writes how many requests may be in service.
fn write_inflight<A: Allocator>(inflight: usize, text: &mut Vec<u8, A>) -> Result<(), NoMemory>
    ensures { OnOk result (text.new.items ≡ text.old.items ++ inflight_line inflight) }
{
    or_no_memory(writeln!(text, "inflight {inflight}"))
}

/// Writes the line of an export. The name is its last field, since it may have spaces.
fn write_export<A: Allocator + Copy>(
    at: usize,
    export: &ExportConfig<A>,
    text: &mut Vec<u8, A>,
) -> Result<(), NoMemory>
    ensures { OnOk result (text.new.items ≡ text.old.items ++ export_line at export.now) }
{
    write_disk(at, export, text)?;
    write_rates(export, text)?;
    write_queue(export, text)?;
    text.extend_from_slice(export.name())?;
    text.extend_from_slice(b"\n")?;
    Ok(())
}

/// Writes the first fields: the place of the export, its size, and whether it is read-only.
fn write_disk<A: Allocator + Copy>(
    at: usize,
    export: &ExportConfig<A>,
    text: &mut Vec<u8, A>,
) -> Result<(), NoMemory>
    ensures { OnOk result (text.new.items ≡ text.old.items ++ disk_text at export.now) }
{
    let size = export.size();
    let mode = mode_word(export.is_read_only());
    or_no_memory(write!(text, "{at} {size} {mode}"))
}

/// Writes the rates and the weight.
fn write_rates<A: Allocator + Copy>(
    export: &ExportConfig<A>,
    text: &mut Vec<u8, A>,
) -> Result<(), NoMemory>
    ensures { OnOk result (text.new.items ≡ text.old.items ++ rates_text export.now) }
{
    let reservation = export.reservation();
    let limit = export.limit();
    let weight = export.weight();
    or_no_memory(write!(text, " r={reservation} l={limit} w={weight}"))
}

/// Writes how many requests may wait, and how many of a session may be outstanding.
fn write_queue<A: Allocator + Copy>(
    export: &ExportConfig<A>,
    text: &mut Vec<u8, A>,
) -> Result<(), NoMemory>
    ensures { OnOk result (text.new.items ≡ text.old.items ++ queue_text export.now) }
{
    let depth = export.depth();
    let window = export.window();
    or_no_memory(write!(text, " depth={depth} window={window} "))
}

fn mode_word(read_only: bool) -> &'static str
    ensures { result.now ≡ mode_word read_only }
{
    if read_only { "ro" } else { "rw" }
}

/// Writes the line that says what is refused, and where.
fn write_refusal<A: Allocator>(refusal: FileRefusal, text: &mut Vec<u8, A>) -> Result<(), NoMemory>
    ensures { OnOk result (text.new.items ≡ text.old.items ++ refusal_line refusal) }
{
    let code = refusal.reason.code();
    match refusal.place {
        Place::Top => or_no_memory(writeln!(text, "C{code} top")),
        Place::Export(at) => or_no_memory(writeln!(text, "C{code} export {at}")),
    }
}
