//! From command lines to exit statuses: which command runs, and what the shell is told.

use clap::Error;
use nbd_stream::Counted;
use nbdq_cli::{
    Commands, ControlTask, Ending, Outcome, ServeTask, Task, asked_job, run_asked, run_buffered,
};
use std::alloc::Global;
use std::io;
use std::io::{ErrorKind, Write};

/// What was done beside the lines that were told.
#[derive(Clone, Copy, Debug, PartialEq, Eq)]
enum Did {
    Nothing,
    Ran(Task),
    Served,
    Controlled,
    Shown,
    Explained,
    /// More than one of these.
    More,
}

/// Commands that only note what they are asked for, and end so.
#[derive(Drop)]
struct Noted {
    end: Ending,
    did: Did,
    lines: Vec<u8>,
}

impl Noted {
    fn note(&mut self, did: Did) {
        self.did = match self.did {
            Did::Nothing => did,
            _ => Did::More,
        };
    }
}

impl Commands for Noted {
    fn task(&mut self, task: Task) -> Outcome {
        self.note(Did::Ran(task));
        match self.end {
            Ending::Ran(outcome) => outcome,
            _ => Outcome::Done,
        }
    }

    fn serve(&mut self, _: &ServeTask) -> Ending {
        self.note(Did::Served);
        self.end
    }

    fn control(&mut self, _: &ControlTask) -> Ending {
        self.note(Did::Controlled);
        self.end
    }

    fn show(&mut self, _: &Error) -> bool {
        self.note(Did::Shown);
        self.end == Ending::Version
    }

    fn explain(&mut self, _: &Error) {
        self.note(Did::Explained);
    }

    fn tell(&mut self, line: &str) {
        let _ = self.lines.extend_from_slice(line.as_bytes());
    }
}

/// A command line, how what it asks for ends, what is done, the line of the end, and the exit status.
type Case = (&'static str, Ending, Did, &'static str, u8);

const CASES: [Case; 19] = [
    (
        "check",
        Ending::Ran(Outcome::Done),
        Did::Ran(Task::Check),
        "",
        0,
    ),
    (
        "talk",
        Ending::Ran(Outcome::Done),
        Did::Ran(Task::Talk),
        "",
        0,
    ),
    (
        "replay",
        Ending::Ran(Outcome::Done),
        Did::Ran(Task::Replay),
        "",
        0,
    ),
    ("serve", Ending::Ran(Outcome::Done), Did::Served, "", 0),
    (
        "control",
        Ending::Ran(Outcome::Done),
        Did::Controlled,
        "",
        0,
    ),
    ("--version", Ending::Version, Did::Shown, "", 0),
    (
        "check",
        Ending::Ran(Outcome::Refused),
        Did::Ran(Task::Check),
        "",
        1,
    ),
    (
        "control",
        Ending::Ran(Outcome::Refused),
        Did::Controlled,
        "",
        1,
    ),
    ("--help", Ending::Usage, Did::Explained, "", 2),
    ("fly", Ending::Usage, Did::Explained, "", 2),
    (
        "serve",
        Ending::NoListener,
        Did::Served,
        "serve: no listener",
        2,
    ),
    (
        "serve",
        Ending::BadAddress,
        Did::Served,
        "serve: bad address",
        2,
    ),
    (
        "control",
        Ending::NoSocket,
        Did::Controlled,
        "control: no socket",
        2,
    ),
    (
        "talk",
        Ending::Ran(Outcome::NoMemory),
        Did::Ran(Task::Talk),
        "no memory",
        3,
    ),
    (
        "replay",
        Ending::Ran(Outcome::ReadFailed),
        Did::Ran(Task::Replay),
        "read failed",
        4,
    ),
    (
        "talk",
        Ending::Ran(Outcome::WriteFailed),
        Did::Ran(Task::Talk),
        "write failed",
        4,
    ),
    (
        "serve",
        Ending::CannotListen,
        Did::Served,
        "cannot listen",
        4,
    ),
    (
        "control",
        Ending::SocketFailed,
        Did::Controlled,
        "control: socket failed",
        4,
    ),
    ("--version", Ending::Usage, Did::Shown, "write failed", 4),
];

/// Whether the command line has that done, that told, and this status.
fn goes(alloc: Global, case: &Case) -> bool {
    let (word, end, did, line, status) = *case;
    let mut commands = Noted {
        end,
        did: Did::Nothing,
        lines: Vec::new(alloc),
    };
    let asked = asked_job(alloc, &["nbdq", word]);
    let exit = run_asked(&mut commands, asked);
    exit == status && commands.did == did && commands.lines.as_slice() == line.as_bytes()
}

#[test]
fn command_lines_and_statuses(rt: HostRuntime) {
    for case in &CASES {
        assert!(rt; goes(rt.alloc(), case), "{case:?}");
    }
}

/// Whether a command reads that, writes this, and goes so.
fn runs(alloc: Global, task: Task, read: &[u8], written: &[u8], outcome: Outcome) -> bool {
    let mut input = Counted::new(read);
    let (went, output) = run_buffered(task, alloc, alloc, &mut input, Vec::new(alloc));
    match output {
        Some(output) => went == outcome && output.as_slice() == written,
        None => false,
    }
}

#[test]
fn each_task_runs(rt: HostRuntime) {
    let alloc = rt.alloc();
    let script = b"export a size=4096\n---\n".as_slice();
    let greeting = b"4e42444d4147494349484156454f5054\n0003\nend over\n".as_slice();
    assert!(rt; runs(alloc, Task::Check, script, b"C1 top\n", Outcome::Refused));
    assert!(rt; runs(alloc, Task::Talk, script, greeting, Outcome::Done));
    assert!(rt; runs(alloc, Task::Replay, script, b"steps 0\n", Outcome::Done));
}

/// A writer that takes nothing.
#[derive(Drop)]
struct Full;

impl Write for Full {
    fn write(&mut self, _: &[u8]) -> io::Result<usize> {
        Err(io::Error::from(ErrorKind::StorageFull))
    }

    fn flush(&mut self) -> io::Result<()> {
        Ok(())
    }
}

/// Whether a command that reads that ends by a failed write, and gives no output back.
fn fails(alloc: Global, task: Task, read: &[u8]) -> bool {
    let mut input = Counted::new(read);
    let (went, output) = run_buffered(task, alloc, alloc, &mut input, Full);
    went == Outcome::WriteFailed && output.is_none()
}

// The text is shorter than the buffer, so it is written at the end alone.
#[test]
fn a_text_that_stays_in_the_buffer_is_a_failed_write(rt: HostRuntime) {
    for task in [Task::Check, Task::Talk, Task::Replay] {
        assert!(rt; fails(rt.alloc(), task, b"export a size=4096\n---\n"));
    }
}
