//! `nbdq replay`: a script, and what a server answers to its lines.

ghost use Rattle.std.specs.Prelude.{◌≡◌, ◌≢◌, ◌⊎◌, OnOk, Some};
ghost use Rattle.server_core.specs.Served.{setup_for};
ghost use Rattle.nbd_scripts.specs.Replayed.{IsMade, Replays, ReplaysFirst, TellsLine, steps_line};
ghost use Rattle.nbd_scripts.specs.Scripts.{TellsReplay};
ghost use Rattle.nbd_scripts.specs.Told.{CountsRead, CountsWrite, CutShort, Writes};

use crate::answers::write_answer;
use crate::events::{Lines, read_lines};
use crate::head::{Head, read_head};
use crate::outcome::Outcome;
use crate::reading::read_whole;
use crate::refused::refuse_line;
use crate::replay_line::ReplayLine;
use crate::tags::write_tags;
use crate::writing::tell_text;
use eligibility::Heaped;
use export_store::Paged;
use nbd_base::NoMemory;
use nbd_commands::Config;
use nbd_stream::Counted;
use nbd_text::or_no_memory;
use server_core::Server;
use std::alloc::Allocator;
use std::io::{Read, Write};

/// Reads a whole script, and then makes its lines on a server and writes what each is answered.
pub fn replay_script<A: Allocator + Copy, R: Read, W: Write>(
    alloc: A,
    input: &mut Counted<R>,
    output: &mut Counted<W>,
) -> Outcome
    ensures told { TellsReplay A
        (record {
          unread = R.remaining input.old.inner;
          left = R.remaining input.new.inner;
          old = W.contents output.old.inner;
          new = W.contents output.new.inner;
        }) result }
    ensures reads { CountsRead result input.old.failures input.new.failures }
    ensures writes { CountsWrite result output.old.failures output.new.failures }
{
    let script = match read_whole(alloc, input) {
        Ok(script) => script,
        Err(outcome) => return outcome,
    };
    match read_head(alloc, &script) {
        Head::Read(config, body) => match read_lines(alloc, body) {
            Lines::Read(lines) => replay(alloc, &config, lines, output),
            Lines::Refused(line, fault) => refuse_line(alloc, line, fault, output),
        },
        Head::Refused(line, fault) => refuse_line(alloc, line, fault, output),
    }
}

/// Makes the lines in order, and writes what they are answered and how many steps were counted.
fn replay<A: Allocator + Copy, W: Write>(
    alloc: A,
    config: &Config<A>,
    lines: Vec<ReplayLine<A>, A>,
    output: &mut Counted<W>,
) -> Outcome
    ensures done { result ≡ Outcome.Done → Replays {A = A} (setup_for config.now) lines.items
        (W.contents output.old.inner) (W.contents output.new.inner) }
    ensures failed { (result ≡ Outcome.Done) ⊎ (result ≡ Outcome.NoMemory)
        ⊎ (result ≡ Outcome.WriteFailed) }
    ensures no_memory { result ≡ Outcome.NoMemory → ReplaysFirst {A = A} (setup_for config.now)
        lines.items (W.contents output.old.inner) (W.contents output.new.inner) }
    ensures write_failed { result ≡ Outcome.WriteFailed → CutShort
        (λ all. Replays {A = A} (setup_for config.now) lines.items (W.contents output.old.inner) all
        ⊎ ReplaysFirst {A = A} (setup_for config.now) lines.items
        (W.contents output.old.inner) all)
        (W.contents output.old.inner) (W.contents output.new.inner) }
    ensures counted { CountsWrite result output.old.failures output.new.failures }
{
    let made: Result<Server<Paged<A>, Heaped<A>>, _> = Server::new(alloc, config);
    let Ok(mut server) = made else {
        return Outcome::NoMemory;
    };
    let mut text = Vec::new(alloc);
    for line in lines {
        match tell_line(alloc, &mut server, line, &mut text, output) {
            Outcome::Done => {}
            failed => return failed,
        }
    }
    write_steps(alloc, server.steps(), output)
}

/// Makes one line, and writes what it is answered. `text` is what it is written from.
fn tell_line<A: Allocator + Copy, W: Write>(
    alloc: A,
    server: &mut Server<Paged<A>, Heaped<A>>,
    line: ReplayLine<A>,
    text: &mut Vec<u8, A>,
    output: &mut Counted<W>,
) -> Outcome
    ensures told { TellsLine {A = A} server.old line server.new (W.contents output.old.inner)
        (W.contents output.new.inner) result }
    ensures counted { CountsWrite result output.old.failures output.new.failures }
{
    text.clear();
    match make_line(alloc, server, line, text) {
        Ok(()) => tell_text(text, Outcome::Done, output),
        Err(NoMemory) => Outcome::NoMemory,
    }
}

/// Makes one line, and appends what it is answered.
fn make_line<A: Allocator + Copy>(
    alloc: A,
    server: &mut Server<Paged<A>, Heaped<A>>,
    line: ReplayLine<A>,
    text: &mut Vec<u8, A>,
) -> Result<(), NoMemory>
    ensures { OnOk result
        (IsMade {A = A} server.old line server.new (Some text.old.items) (Some text.new.items)) }
{
    match line {
        ReplayLine::Event(event) => write_answer(alloc, server.event(event), text),
        ReplayLine::Tags(export) => write_tags(alloc, server, export, text),
    }
}

/// Writes the last line, how many steps were counted.
fn write_steps<A: Allocator, W: Write>(alloc: A, steps: u128, output: &mut Counted<W>) -> Outcome
    ensures told { Writes (steps_line steps) Outcome.Done (W.contents output.old.inner)
        (W.contents output.new.inner) result }
    ensures counted { CountsWrite result output.old.failures output.new.failures }
{
    let mut text = Vec::new(alloc);
    match or_no_memory(writeln!(text, "steps {steps}")) {
        Ok(()) => tell_text(&text, Outcome::Done, output),
        Err(NoMemory) => Outcome::NoMemory,
    }
}
