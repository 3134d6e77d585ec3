//! What the tests of whole scripts share.

use super::streams::{Sink, beginning};
use nbd_scripts::{Outcome, replay_script, talk_script};
use nbd_stream::Counted;
use std::alloc::{Allocator, Global};
use std::io;
use std::io::{Read, Write};

/// What it shows, the script, and all that is written.
pub type Row = (&'static str, &'static [u8], &'static [u8]);

/// What reads a script.
#[derive(Clone, Copy)]
pub enum Command {
    Talk,
    Replay,
}

/// How a script goes.
pub fn run<A: Allocator + Copy, R: Read, W: Write>(
    command: Command,
    alloc: A,
    input: &mut Counted<R>,
    output: &mut Counted<W>,
) -> Outcome {
    match command {
        Command::Talk => talk_script(alloc, input, output),
        Command::Replay => replay_script(alloc, input, output),
    }
}

/// How a script goes where its memory is from this heap, and what is written.
pub fn went<A: Allocator + Copy>(
    command: Command,
    alloc: Global,
    heap: A,
    script: &[u8],
) -> (Outcome, Vec<u8>) {
    let mut output = Counted::new(Vec::new(alloc));
    let outcome = run(command, heap, &mut Counted::new(script), &mut output);
    (outcome, output.into_inner())
}

/// Whether a script goes so, and this is all that is written.
pub fn goes(
    command: Command,
    alloc: Global,
    script: &[u8],
    outcome: Outcome,
    written: &[u8],
) -> bool {
    let (told, output) = went(command, alloc, alloc, script);
    told == outcome && output.as_slice() == written
}

/// What the first row shows whose script doesn't go so, or of which something else is written.
pub fn first_wrong(
    command: Command,
    alloc: Global,
    rows: &[Row],
    outcome: Outcome,
) -> Option<&'static str> {
    for row in rows {
        if !goes(command, alloc, row.1, outcome, row.2) {
            return Some(row.0);
        }
    }
    None
}

/// Whether a write of a script fails once the writer has taken these bytes, and that is counted.
pub fn write_fails(
    command: Command,
    alloc: Global,
    script: &[u8],
    sink: Sink,
    taken: &[u8],
) -> bool {
    let mut input = Counted::new(script);
    let mut output = Counted::new(sink);
    let outcome = run(command, alloc, &mut input, &mut output);
    let counted = input.failures() == 0 && output.failures() == 1;
    outcome == Outcome::WriteFailed && counted && output.into_inner().has(taken)
}

/// Whether that is so at each place of what is written.
pub fn every_write_fails(
    command: Command,
    alloc: Global,
    script: &[u8],
    most: usize,
    written: &[u8],
) -> bool {
    for room in 0..written.len() {
        let sink = Sink::new(alloc, room, most, io::ErrorKind::BrokenPipe);
        if !write_fails(command, alloc, script, sink, beginning(written, room)) {
            return false;
        }
    }
    true
}

/// These texts, one behind another.
pub fn joined(alloc: Global, parts: &[&[u8]]) -> Option<Vec<u8>> {
    let mut text = Vec::new(alloc);
    for part in parts {
        if text.extend_from_slice(part).is_err() {
            return None;
        }
    }
    Some(text)
}

/// A text so many times.
pub fn repeated(alloc: Global, part: &[u8], count: u32) -> Option<Vec<u8>> {
    let mut text = Vec::new(alloc);
    for _ in 0..count {
        if text.extend_from_slice(part).is_err() {
            return None;
        }
    }
    Some(text)
}
