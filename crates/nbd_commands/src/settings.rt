ghost use Rattle.std.specs.Prelude.{◌≡◌, ◌↔◌, IsTrue};
ghost use Rattle.nbd_commands.specs.Exports.{plain_export, IsWithin};
ghost use Rattle.nbd_commands.specs.Refusals.{asked, code_of};

use thiserror::Error;

/// The greatest number of exports of a server.
pub const MAX_EXPORTS: usize = 64;

/// How many requests of a server are out at once, where nothing else is configured.
pub const DEFAULT_INFLIGHT: u64 = 32;

const MAX_INFLIGHT: u64 = 4096;

/// Why a configuration is refused.
#[derive(Clone, Copy, Debug, PartialEq, Eq, Error)]
pub enum Refusal {
    #[error("the number of exports isn't between 1 and 64")]
    ExportCount,
    #[error("the name isn't 1 to 255 bytes long")]
    BadName,
    #[error("an earlier export has the same name")]
    RepeatedName,
    #[error("the description is over 4,096 bytes long")]
    BadDescription,
    #[error("the size isn't between 1 and 1,099,511,627,776")]
    BadSize,
    #[error("the reservation isn't between 0 and 1,000,000")]
    BadReservation,
    #[error("the limit isn't between 0 and 1,000,000")]
    BadLimit,
    #[error("the weight isn't between 1 and 1,000,000")]
    BadWeight,
    #[error("the depth isn't between 1 and 4,096")]
    BadDepth,
    #[error("the window isn't between 1 and 4,096")]
    BadWindow,
    #[error("inflight isn't between 1 and 4,096")]
    BadInflight,
    #[error("the reservation is above the limit")]
    ReservationAboveLimit,
}

impl Refusal {
    /// The number of its kind, by which the program's texts tell of it.
    pub fn code(self) -> u8
        ensures { result ≡ code_of self }
    {
        match self {
            Refusal::ExportCount => 3,
            Refusal::BadName | Refusal::RepeatedName | Refusal::BadDescription => 4,
            Refusal::BadSize => 5,
            Refusal::BadReservation | Refusal::BadLimit => 6,
            Refusal::BadWeight => 7,
            Refusal::BadDepth | Refusal::BadWindow | Refusal::BadInflight => 8,
            Refusal::ReservationAboveLimit => 9,
        }
    }
}

/// Why no configuration was made.
#[derive(Clone, Copy, Debug, PartialEq, Eq, Error)]
pub enum ConfigError {
    #[error("{0}")]
    Refused(Refusal),
    #[error("no memory")]
    NoMemory,
}

/// What is asked for an export, in or out of range. A reader of a configuration fills it in.
///
/// Rates are in requests a second; a reservation or a limit of 0 is none. The size is in bytes. `depth` requests may
/// wait, and a session may have `window` of them outstanding.
#[derive(Clone, Copy, Debug)]
pub struct ExportSettings<'a> {
    pub name: &'a [u8],
    pub description: Option<&'a [u8]>,
    pub size: u64,
    pub read_only: bool,
    pub reservation: u64,
    pub limit: u64,
    pub weight: u64,
    pub depth: u64,
    pub window: u64,
}

impl<'a> ExportSettings<'a> {
    /// The defaults for all but the name and the size.
    pub fn new(name: &'a [u8], size: u64) -> ExportSettings<'a>
        ensures { asked result ≡ plain_export name.now size }
    {
        ExportSettings {
            name,
            description: None,
            size,
            read_only: false,
            reservation: 0,
            limit: 0,
            weight: 1,
            depth: 1024,
            window: 256,
        }
    }
}

/// Whether so many requests may be out at once.
pub fn is_inflight(count: u64) -> bool
    ensures { IsTrue result ↔ IsWithin 4096 count }
{
    1 <= count && count <= MAX_INFLIGHT
}
