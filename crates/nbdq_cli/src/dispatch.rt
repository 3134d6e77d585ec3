//! From what the command line asks for to the exit status: which command runs, and what the shell is told.

ghost use Rattle.std.specs.Prelude.{List, [], ◌∷◌, None, Option, ⊤};
ghost use Rattle.nbdq_cli.specs.declared.command_line.Job.TheVariants as jobs;
ghost use Rattle.nbdq_cli.specs.declared.outcome.Ending.TheVariants.{Ran};
ghost use Rattle.nbdq_cli.specs.Outcomes.{text_of_end};
ghost use Rattle.nbd_base.specs.Logs.{Notes};
ghost use Rattle.nbdq_cli.specs.Deeds.{line_told, ComesTo, Deed, Dispatches, Explains, RefusedWith, Runs, Shows, Tells};

use crate::command_line::{ControlTask, Job, ServeTask, Task};
use crate::outcome::{Ending, Outcome, end_of_refusal, status_of_end, text_of_end};
use clap::Error;

/// The commands of the program, and where the shell is told of them.
pub trait Commands {
    // What was done so far, where that is known.
    ghost deeds: { Self → Option (List Deed) } = { λ _. None };

    // What has to hold so that its methods may be called.
    ghost ready: { Self → Type 0 } = { λ _. ⊤ };

    /// Reads all of standard input, and then writes.
    fn task(&mut self, task: Task) -> Outcome
        requires { ready self.old }
        ensures ready { ready self.new }
        ensures done { Notes (deeds self.old) (deeds self.new) (Runs (jobs.Task task) (Ran result) ∷ []) };

    /// Serves disks.
    fn serve(&mut self, task: &ServeTask) -> Ending
        requires { ready self.old }
        ensures ready { ready self.new }
        ensures done { Notes (deeds self.old) (deeds self.new) (Runs (jobs.Serve task.now) result ∷ []) };

    /// Asks a server that runs.
    fn control(&mut self, task: &ControlTask) -> Ending
        requires { ready self.old }
        ensures ready { ready self.new }
        ensures done { Notes (deeds self.old) (deeds self.new) (Runs (jobs.Control task.now) result ∷ []) };

    /// Shows the text of the command line's parser on standard output, and tells whether it was written.
    fn show(&mut self, error: &Error) -> bool
        requires { ready self.old }
        ensures ready { ready self.new }
        ensures done { Notes (deeds self.old) (deeds self.new) (Shows error.now result ∷ []) };

    /// Shows that text on standard error.
    fn explain(&mut self, error: &Error)
        requires { ready self.old }
        ensures ready { ready self.new }
        ensures done { Notes (deeds self.old) (deeds self.new) (Explains error.now ∷ []) };

    /// Tells standard error a line.
    fn tell(&mut self, line: &str)
        requires { ready self.old }
        ensures ready { ready self.new }
        ensures done { Notes (deeds self.old) (deeds self.new) (Tells line.now ∷ []) };
}

/// Runs what is asked for, tells standard error the line of its end, and answers the exit status. A standard error that fails changes
/// no status.
pub fn run_asked<C: Commands>(commands: &mut C, asked: Result<Job, Error>) -> u8
    requires { C.ready commands.old }
    ensures { Dispatches asked (C.deeds commands.old) (C.deeds commands.new) result }
{
    let end = go(commands, asked);
    tell_end(commands, end);
    status_of_end(end)
}

/// Runs what is asked for, or shows why nothing is.
fn go<C: Commands>(commands: &mut C, asked: Result<Job, Error>) -> Ending
    requires { C.ready commands.old }
    ensures ready { C.ready commands.new }
    ensures comes { ComesTo asked (C.deeds commands.old) (C.deeds commands.new) result }
{
    match asked {
        Ok(job) => run_job(commands, &job),
        Err(error) => refuse(commands, &error),
    }
}

/// Runs the command that is asked for.
fn run_job<C: Commands>(commands: &mut C, job: &Job) -> Ending
    requires { C.ready commands.old }
    ensures ready { C.ready commands.new }
    ensures done { Notes (C.deeds commands.old) (C.deeds commands.new) (Runs job.now result ∷ []) }
{
    match job {
        Job::Task(task) => Ending::Ran(commands.task(*task)),
        Job::Serve(task) => commands.serve(task),
        Job::Control(task) => commands.control(task),
    }
}

/// Shows the text of the command line's parser: the version on standard output, all else on standard error.
fn refuse<C: Commands>(commands: &mut C, error: &Error) -> Ending
    requires { C.ready commands.old }
    ensures ready { C.ready commands.new }
    ensures refused { RefusedWith error.now (C.deeds commands.old) (C.deeds commands.new) result }
{
    let end = end_of_refusal(error);
    match end {
        Ending::Version => {
            if commands.show(error) {
                end
            } else {
                Ending::Ran(Outcome::WriteFailed)
            }
        }
        Ending::Usage => {
            commands.explain(error);
            end
        }
        _ => end,
    }
}

/// Tells the line of an end, if it has one.
#[tactic(auto, using(nbd_base::proofs::Logs::notes_nothing))]
fn tell_end<C: Commands>(commands: &mut C, end: Ending)
    requires { C.ready commands.old }
    ensures { Notes (C.deeds commands.old) (C.deeds commands.new) (line_told (text_of_end end)) }
{
    if let Some(line) = text_of_end(end) {
        commands.tell(line);
    }
}
