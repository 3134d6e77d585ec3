use nbd_base::NoMemory;
use nbd_stream::WriteFailed;
use std::alloc::{AllocError, AllocFailed};
use thiserror::Error;

/// How a conversation ended.
#[derive(Clone, Copy, Debug, PartialEq, Eq)]
pub enum End {
    /// The client sent DISC.
    Disc,
    /// The client sent ABORT.
    Abort,
    /// The client named an export that isn't there.
    NoExport,
    /// The input ended between two messages.
    Over,
    /// The input ended within a message.
    Cut,
    /// The client's flags have a bit set that is unknown.
    BadFlags,
    /// A head has another magic than it should.
    BadMagic,
    /// An option's data or a WRITE is longer than allowed.
    TooLong,
    /// The client sent more options than allowed.
    TooMany,
    /// The export has counted all the steps that it may.
    Worn,
}

/// How the handshake ended.
#[derive(Clone, Copy, Debug, PartialEq, Eq)]
pub enum Entry {
    /// The client is in this export, by its place in the configuration.
    In(u32),
    /// The session ended.
    Out(End),
    /// The client got no session of the export that it chose.
    Refused,
}

/// Why a conversation could not be held to its end.
#[derive(Clone, Copy, Debug, PartialEq, Eq, Error)]
pub enum TalkFault {
    /// A read failed. All that the bytes read before ask for was written.
    #[error("read failed")]
    ReadFailed,
    /// A write failed. A beginning of the text was written.
    #[error("write failed")]
    WriteFailed,
    /// Memory was refused. A beginning of the text was written.
    #[error("no memory")]
    NoMemory,
}

impl From<NoMemory> for TalkFault {
    ghost use Rattle.std.specs.Prelude.{◌≡◌};
    ghost use Rattle.nbd_session.specs.declared.outcomes.TalkFault.TheVariants as fault;

    ghost from_gives = { λ _ e. e ≡ fault.NoMemory };

    fn from(_e: NoMemory) -> TalkFault {
        TalkFault::NoMemory
    }
}

impl From<AllocError> for TalkFault {
    ghost use Rattle.std.specs.Prelude.{◌≡◌};
    ghost use Rattle.nbd_session.specs.declared.outcomes.TalkFault.TheVariants as fault;

    ghost from_gives = { λ _ e. e ≡ fault.NoMemory };

    fn from(_e: AllocError) -> TalkFault {
        TalkFault::NoMemory
    }
}

impl<T: Drop> From<AllocFailed<T>> for TalkFault {
    ghost use Rattle.std.specs.Prelude.{◌≡◌};
    ghost use Rattle.nbd_session.specs.declared.outcomes.TalkFault.TheVariants as fault;

    ghost from_gives = { λ _ e. e ≡ fault.NoMemory };

    fn from(_e: AllocFailed<T>) -> TalkFault {
        TalkFault::NoMemory
    }
}

impl From<WriteFailed> for TalkFault {
    ghost use Rattle.std.specs.Prelude.{◌≡◌};
    ghost use Rattle.nbd_session.specs.declared.outcomes.TalkFault.TheVariants as fault;

    ghost from_gives = { λ _ e. e ≡ fault.WriteFailed };

    fn from(_e: WriteFailed) -> TalkFault {
        TalkFault::WriteFailed
    }
}
