use nbd_base::NoMemory;
use thiserror::Error;

/// Why the head of a request or of an option is refused. The session ends by it, without a reply.
#[derive(Clone, Copy, Debug, PartialEq, Eq, Error)]
pub enum WireFault {
    /// The bytes don't begin with the magic of their kind (NBD protocol, "Request message" and "Option haggling").
    #[error("wrong magic")]
    BadMagic,
    /// A WRITE of more than 32 MiB, the maximum block size that is announced.
    #[error("too long")]
    TooLong,
}

/// Why a decoder refuses a piece. The session ends by it, without a reply.
#[derive(Clone, Copy, Debug, PartialEq, Eq, Error)]
pub enum FeedFault {
    /// A head doesn't begin with the magic of requests.
    #[error("wrong magic")]
    BadMagic,
    /// A WRITE of more than 32 MiB.
    #[error("too long")]
    TooLong,
    /// Memory was refused. What the piece held is lost but for the requests that were appended.
    #[error("no memory")]
    NoMemory,
    /// An earlier piece was refused.
    #[error("failed before")]
    Failed,
}

impl From<NoMemory> for FeedFault {
    ghost use Rattle.std.specs.Prelude.{◌≡◌};
    ghost use Rattle.nbd_wire.specs.declared.fault.FeedFault.{FeedFault};

    ghost from_gives = { λ _ e. e ≡ FeedFault.NoMemory };

    fn from(_: NoMemory) -> FeedFault {
        FeedFault::NoMemory
    }
}
