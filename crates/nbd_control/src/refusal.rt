//! Why a line spells no command.

use nbd_commands::Refusal;
use std::alloc::AllocError;
use thiserror::Error;

/// Why a line is refused. It is told, and nothing is changed.
#[derive(Clone, Copy, Debug, PartialEq, Eq, Error)]
pub enum Refused {
    #[error("the line is longer than 4,096 bytes")]
    LineTooLong,
    #[error("the line isn't UTF-8")]
    NotUtf8,
    #[error("there is no such command")]
    UnknownCommand,
    #[error("the command has another number of fields")]
    FieldCount,
    #[error("the name begins with a quote, and is no TOML string")]
    BadQuotes,
    #[error("a field isn't a number in decimal digits, or doesn't fit 64 bits")]
    NotANumber,
    #[error("{0}")]
    Rates(Refusal),
}

/// Why no command was read.
#[derive(Clone, Copy, Debug, PartialEq, Eq, Error)]
pub enum CommandError {
    #[error("{0}")]
    Refused(Refused),
    #[error("no memory")]
    NoMemory,
}

impl From<AllocError> for CommandError {
    ghost use Rattle.std.specs.Prelude.{◌≡◌};
    ghost use Rattle.nbd_control.specs.declared.refusal.CommandError.TheVariants as errors;

    ghost from_gives = { λ _ e. e ≡ errors.NoMemory };

    fn from(_: AllocError) -> CommandError {
        CommandError::NoMemory
    }
}
