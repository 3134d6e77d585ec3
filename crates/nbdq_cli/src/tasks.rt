//! The commands that read all of standard input, and then write.

ghost use Rattle.std.specs.Prelude.{IfSome, option_map};
ghost use Rattle.nbd_scripts.specs.Told.{CountsRead, CountsWrite};
ghost use Rattle.nbdq_cli.specs.Tasks.{RunsTask, TellsTask};

use crate::checking::check_text;
use crate::command_line::Task;
use crate::outcome::Outcome;
use nbd_scripts::{replay_script, talk_script};
use nbd_stream::Counted;
use std::alloc::{Allocator, Global};
use std::io::{BufWriter, Read, Write};

/// Runs a command, and gives its output back once all that the command wrote is there.
///
/// It writes through a buffer. The output is let go where memory for that is refused, or where the rest can't be written at the
/// end: then a write failed, however the command went. What `check` parses lies in `heap` for the time of the call, all else in
/// `alloc`.
pub fn run_buffered<A: Allocator + Copy, R: Read, W: Write + Drop>(
    task: Task,
    heap: Global,
    alloc: A,
    input: &mut Counted<R>,
    output: W,
) -> (Outcome, Option<W>)
    ensures runs { RunsTask A task (R.remaining input.old.inner) (R.remaining input.new.inner)
        (W.contents output) (option_map W.contents result.1) result.0 }
    ensures reads { IfSome result.1 (λ _.
        CountsRead result.0 input.old.failures input.new.failures) }
{
    let Ok(writer) = BufWriter::new(alloc, output) else {
        return (Outcome::NoMemory, None);
    };
    let mut buffered = Counted::new(writer);
    let outcome = run_task(task, heap, alloc, input, &mut buffered);
    match buffered.into_inner().into_inner() {
        Ok(output) => (outcome, Some(output)),
        Err(_) => (Outcome::WriteFailed, None),
    }
}

/// Runs a command over an input and an output.
///
/// What `check` parses lies in `heap` for the time of the call, all else in `alloc`.
fn run_task<A: Allocator + Copy, R: Read, W: Write>(
    task: Task,
    heap: Global,
    alloc: A,
    input: &mut Counted<R>,
    output: &mut Counted<W>,
) -> Outcome
    ensures told { TellsTask A task
        (record {
          unread = R.remaining input.old.inner;
          left = R.remaining input.new.inner;
          old = W.contents output.old.inner;
          new = W.contents output.new.inner;
        }) result }
    ensures reads { CountsRead result input.old.failures input.new.failures }
    ensures writes { CountsWrite result output.old.failures output.new.failures }
{
    match task {
        Task::Check => check_text(heap, alloc, input, output),
        Task::Talk => talk_script(alloc, input, output),
        Task::Replay => replay_script(alloc, input, output),
    }
}
