//! What the shell is told of how a command of the program went.

ghost use Rattle.std.specs.Prelude.{◌≡◌};
ghost use Rattle.std.specs.Option.{option_copied};
ghost use Rattle.clap.specs.Words.{kind_of};
ghost use Rattle.nbdq_cli.specs.Outcomes.{end_of_kind, status_of, text_of, status_of_end, text_of_end};

use clap::Error;
use clap::error::ErrorKind;
pub use nbd_scripts::Outcome;

/// The exit status of the program.
pub fn status(outcome: Outcome) -> u8
    ensures { result ≡ status_of outcome }
{
    match outcome {
        Outcome::Done => 0,
        Outcome::Refused => 1,
        Outcome::NoMemory => 3,
        Outcome::ReadFailed | Outcome::WriteFailed => 4,
    }
}

/// What standard error is told.
pub fn text(outcome: Outcome) -> Option<&'static str>
    ensures { option_copied result ≡ text_of outcome }
{
    match outcome {
        Outcome::Done | Outcome::Refused => None,
        Outcome::NoMemory => Some("no memory"),
        Outcome::ReadFailed => Some("read failed"),
        Outcome::WriteFailed => Some("write failed"),
    }
}

/// How the program ends.
#[derive(Clone, Copy, Debug, PartialEq, Eq)]
pub enum Ending {
    /// A command went so.
    Ran(Outcome),
    /// The version is asked for. Its text goes to standard output.
    Version,
    /// The command line is refused, or asks for help. The text of its parser goes to standard error.
    Usage,
    /// `serve` is asked for without an address or a path.
    NoListener,
    /// What `serve` is to listen on is no IP address with a port.
    BadAddress,
    /// A listener can't be had, or failed.
    CannotListen,
    /// `control` is asked for without a path.
    NoSocket,
    /// The control socket can't be reached, or ended before an answer did.
    SocketFailed,
}

/// How the program ends where the command line asks for none of its commands.
pub fn end_of_refusal(error: &Error) -> Ending
    ensures { result ≡ end_of_kind (kind_of error.now) }
{
    match error.kind() {
        ErrorKind::OutOfMemory => Ending::Ran(Outcome::NoMemory),
        ErrorKind::DisplayVersion => Ending::Version,
        _ => Ending::Usage,
    }
}

/// The exit status of an end.
pub fn status_of_end(end: Ending) -> u8
    ensures { result ≡ status_of_end end }
{
    match end {
        Ending::Ran(outcome) => status(outcome),
        Ending::Version => 0,
        Ending::Usage | Ending::NoListener | Ending::BadAddress | Ending::NoSocket => 2,
        Ending::CannotListen | Ending::SocketFailed => 4,
    }
}

/// The line that standard error is told at an end. The text of the command line's parser is none.
pub fn text_of_end(end: Ending) -> Option<&'static str>
    ensures { option_copied result ≡ text_of_end end }
{
    match end {
        Ending::Ran(outcome) => text(outcome),
        Ending::Version | Ending::Usage => None,
        Ending::NoListener => Some("serve: no listener"),
        Ending::BadAddress => Some("serve: bad address"),
        Ending::CannotListen => Some("cannot listen"),
        Ending::NoSocket => Some("control: no socket"),
        Ending::SocketFailed => Some("control: socket failed"),
    }
}
