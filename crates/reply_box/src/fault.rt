//! Why a call is refused. All stays as it was.
use thiserror::Error;

/// Why no session is opened.
#[derive(Clone, Copy, Debug, PartialEq, Eq, Error)]
pub enum AttachFault {
    /// 64 sessions are not gone.
    #[error("sessions full")]
    Full,
    #[error("no memory")]
    NoMemory,
}

/// Why a request is not admitted.
#[derive(Clone, Copy, Debug, PartialEq, Eq, Error)]
pub enum AdmitFault {
    /// The session was never attached, has left or is gone.
    #[error("not open")]
    NotOpen,
    /// As many requests as the window are outstanding.
    #[error("hold")]
    Hold,
}

/// The session was never attached or is gone; for a call that asks an open session, also where it has left.
#[derive(Clone, Copy, Debug, PartialEq, Eq, Error)]
#[error("not open")]
pub struct NotOpen;
