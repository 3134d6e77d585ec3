//! Why a configuration file gives no configuration.

ghost use Rattle.std.specs.Prelude.{◌≡◌};
ghost use Rattle.nbd_config.specs.Configured.{code_of_reason};

use nbd_commands::Refusal;
use thiserror::Error;

/// Why a configuration file is refused.
#[derive(Clone, Copy, Debug, PartialEq, Eq, Error)]
pub enum Reason {
    #[error("the text isn't UTF-8, or isn't TOML")]
    NotToml,
    #[error("a key is unknown, or its value is of another kind")]
    BadEntry,
    #[error("the name or the size is missing")]
    MissingKey,
    #[error("{0}")]
    Value(Refusal),
}

impl Reason {
    /// The number of its kind, by which the program's texts tell of it.
    pub fn code(self) -> u8
        ensures { result ≡ code_of_reason self }
    {
        match self {
            Reason::NotToml => 1,
            Reason::BadEntry => 2,
            Reason::MissingKey => 3,
            Reason::Value(refusal) => refusal.code(),
        }
    }
}

/// Where in a configuration file something is refused.
#[derive(Clone, Copy, Debug, PartialEq, Eq)]
pub enum Place {
    /// At the top level, or in the text as a whole.
    Top,
    /// In an export, by its place in the file, from 0.
    Export(usize),
}

/// What is refused of a configuration file, and where.
#[derive(Clone, Copy, Debug, PartialEq, Eq, Error)]
#[error("{reason}")]
pub struct FileRefusal {
    pub reason: Reason,
    pub place: Place,
}

/// Why no configuration was read.
#[derive(Clone, Copy, Debug, PartialEq, Eq, Error)]
pub enum FileError {
    #[error("{0}")]
    Refused(FileRefusal),
    #[error("no memory")]
    NoMemory,
}
