//! Why a line of a script isn't taken.

use nbd_base::NoMemory;
use nbd_commands::{ConfigError, Refusal};
use std::alloc::{AllocError, AllocFailed};

/// Why a line of a script isn't taken.
#[derive(Clone, Copy, Debug, PartialEq, Eq)]
pub enum LineFault {
    /// It has none of the forms of a line.
    Form,
    /// A value is out of its range.
    Value(Refusal),
    NoMemory,
}

impl From<AllocError> for LineFault {
    ghost use Rattle.std.specs.Prelude.{◌≡◌};
    ghost use Rattle.nbd_scripts.specs.declared.fault.LineFault.TheVariants as fault;

    ghost from_gives = { λ _ e. e ≡ fault.NoMemory };

    fn from(_: AllocError) -> LineFault {
        LineFault::NoMemory
    }
}

impl<T: Drop> From<AllocFailed<T>> for LineFault {
    ghost use Rattle.std.specs.Prelude.{◌≡◌};
    ghost use Rattle.nbd_scripts.specs.declared.fault.LineFault.TheVariants as fault;

    ghost from_gives = { λ _ e. e ≡ fault.NoMemory };

    fn from(_: AllocFailed<T>) -> LineFault {
        LineFault::NoMemory
    }
}

impl From<NoMemory> for LineFault {
    ghost use Rattle.std.specs.Prelude.{◌≡◌};
    ghost use Rattle.nbd_scripts.specs.declared.fault.LineFault.TheVariants as fault;

    ghost from_gives = { λ _ e. e ≡ fault.NoMemory };

    fn from(_: NoMemory) -> LineFault {
        LineFault::NoMemory
    }
}

impl From<ConfigError> for LineFault {
    ghost use Rattle.std.specs.Prelude.{◌≡◌};
    ghost use Rattle.nbd_scripts.specs.Faults.{fault_of};

    ghost from_gives = { λ error e. e ≡ fault_of error };

    fn from(error: ConfigError) -> LineFault {
        match error {
            ConfigError::Refused(refusal) => LineFault::Value(refusal),
            ConfigError::NoMemory => LineFault::NoMemory,
        }
    }
}
