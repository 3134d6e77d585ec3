//! How a command of the program went.

/// How a command of the program went.
#[derive(Clone, Copy, Debug, PartialEq, Eq)]
pub enum Outcome {
    Done,
    /// The input is refused, and the line that says why is written.
    Refused,
    NoMemory,
    ReadFailed,
    WriteFailed,
}
