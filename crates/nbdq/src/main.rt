//! nbdq: a Network Block Device server. See README.md.
#![tactic(auto)]

mod control;
mod serve;
mod serving;

use clap::Error;
use control::control;
use nbd_stream::Counted;
use nbdq_cli::{
    Commands, ControlTask, Ending, Outcome, ServeTask, Task, read_command_line, run_asked,
    run_buffered,
};
use serve::serve;
use std::io;
use std::net::Net;
use std::process::ExitCode;

/// The commands over the system's streams and sockets.
///
/// `serve` is a closure of `main`: it may wait and starts threads, and the runtime itself has the leave for that in `main` alone.
#[derive(Drop)]
struct Program<'a, R, S> {
    rt: &'a R,
    serve: S,
}

impl<R: Input + Print + Eprint + AllocGlobal + Net, S: Fn(&ServeTask) -> Ending> Commands
    for Program<'_, R, S> {
    ghost ready = { λ program. S.IsAlwaysCallable program.serve };

    fn task(&mut self, task: Task) -> Outcome {
        let alloc = self.rt.alloc();
        let mut input = Counted::new(self.rt.reader());
        let (outcome, _) = run_buffered(task, alloc, alloc, &mut input, io::writer(self.rt));
        outcome
    }

    fn serve(&mut self, task: &ServeTask) -> Ending {
        (self.serve)(task)
    }

    fn control(&mut self, task: &ControlTask) -> Ending {
        control(self.rt, task)
    }

    fn show(&mut self, error: &Error) -> bool {
        self.rt.print(error).is_ok()
    }

    fn explain(&mut self, error: &Error) {
        let _ = self.rt.eprint(error);
    }

    fn tell(&mut self, line: &str) {
        let _ = self.rt.eprintln(line);
    }
}

fn main(rt: HostRuntime) -> ExitCode {
    let asked = read_command_line(&rt);
    let mut program = Program {
        rt: &rt,
        serve: |task: &ServeTask| serve(&rt, task),
    };
    ExitCode::from(run_asked(&mut program, asked))
}
