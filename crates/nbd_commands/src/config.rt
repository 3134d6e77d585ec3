ghost use Rattle.std.specs.Prelude.{◌≡◌, nat_lt, ◌++◌, ◌∷◌, [], length, IfOk, IfErr, OnOk, OnErr};
ghost use Rattle.std.specs.Option.{option_copied, option_map_or};
ghost use Rattle.nbd_commands.specs.Exports.{IsExport, IsOffer, flags_of};
ghost use Rattle.nbd_commands.specs.Refusals.{asked, number_refusal, first_refusal, whole_refusal, refusal_told, is_outside, is_name_taken};

use crate::judging::ExportInfo;
use crate::rates::is_above_limit;
use crate::settings::{ConfigError, ExportSettings, MAX_EXPORTS, Refusal, is_inflight};
use nbd_base::NoMemory;
use std::alloc::Allocator;
use std::marker::Model;

// Transmission flags (NBD protocol, "Transmission flags").
const HAS_FLAGS: u16 = 1;

const READ_ONLY: u16 = 1 << 1;

const SEND_FLUSH: u16 = 1 << 2;

const SEND_FUA: u16 = 1 << 3;

const SEND_TRIM: u16 = 1 << 5;

const SEND_WRITE_ZEROES: u16 = 1 << 6;

const CAN_MULTI_CONN: u16 = 1 << 8;

const SEND_CACHE: u16 = 1 << 10;

const MAX_NAME: usize = 255;

const MAX_DESCRIPTION: usize = 4096;

const MAX_SIZE: u64 = 1_099_511_627_776;

pub(crate) const MAX_RATE: u64 = 1_000_000;

const MAX_QUEUE: u64 = 4096;

/// An export as configured, each value in its range. Rates are in requests a second, 0 for none.
#[derive(Drop)]
pub struct ExportConfig<A: Allocator + Copy> {
    name: Vec<u8, A>,
    description: Option<Vec<u8, A>>,
    size: u64,
    read_only: bool,
    reservation: u32,
    limit: u32,
    weight: u32,
    depth: usize,
    window: usize,
}

impl<A: Allocator + Copy> Model for ExportConfig<A> {
    ghost use Rattle.nbd_commands.specs.Exports.{Export, IsExport};
    ghost use Rattle.std.specs.Prelude.{option_map};

    ghost Value = { Export };

    ghost view = { λ e. record {
      name = e.name.items;
      description = option_map (λ text. text.items) e.description;
      size = e.size;
      read_only = e.read_only;
      reservation = e.reservation;
      limit = e.limit;
      weight = e.weight;
      depth = e.depth;
      window = e.window;
    } };

    ghost invariant = { λ e. IsExport (record {
      name = e.name.items;
      description = option_map (λ text. text.items) e.description;
      size = e.size;
      read_only = e.read_only;
      reservation = e.reservation;
      limit = e.limit;
      weight = e.weight;
      depth = e.depth;
      window = e.window;
    }) };
}

impl<A: Allocator + Copy> ExportConfig<A> {
    /// The settings in their own memory.
    fn of(alloc: A, settings: &ExportSettings<'_>) -> Result<ExportConfig<A>, NoMemory>
        requires { IsExport (asked settings.now) }
        ensures { IfOk result (λ e. e ≡ asked settings.now) }
    {
        let name = settings.name.to_vec(alloc)?;
        let description = match settings.description {
            Some(text) => Some(text.to_vec(alloc)?),
            None => None,
        };
        Ok(ExportConfig {
            name,
            description,
            size: settings.size,
            read_only: settings.read_only,
            reservation: settings.reservation as u32,
            limit: settings.limit as u32,
            weight: settings.weight as u32,
            depth: settings.depth as usize,
            window: settings.window as usize,
        })
    }

    /// The bytes of the name, which are a text where the configuration was one.
    pub fn name(&self) -> &[u8]
        ensures value { result.now ≡ self.now.name }
        ensures valid { IsExport self.now }
    {
        self.name.as_slice()
    }

    pub fn description(&self) -> Option<&[u8]>
        ensures value { option_copied result ≡ self.now.description }
        ensures valid { IsExport self.now }
    {
        match &self.description {
            Some(text) => Some(text.as_slice()),
            None => None,
        }
    }

    /// In bytes.
    pub fn size(&self) -> u64
        ensures value { result ≡ self.now.size }
        ensures valid { IsExport self.now }
    {
        self.size
    }

    pub fn is_read_only(&self) -> bool
        ensures value { result ≡ self.now.read_only }
        ensures valid { IsExport self.now }
    {
        self.read_only
    }

    /// Requests a second, 0 for none.
    pub fn reservation(&self) -> u32
        ensures value { result ≡ self.now.reservation }
        ensures valid { IsExport self.now }
    {
        self.reservation
    }

    /// Requests a second, 0 for none.
    pub fn limit(&self) -> u32
        ensures value { result ≡ self.now.limit }
        ensures valid { IsExport self.now }
    {
        self.limit
    }

    pub fn weight(&self) -> u32
        ensures value { result ≡ self.now.weight }
        ensures valid { IsExport self.now }
    {
        self.weight
    }

    /// How many of its requests may wait.
    pub fn depth(&self) -> usize
        ensures value { result ≡ self.now.depth }
        ensures valid { IsExport self.now }
    {
        self.depth
    }

    /// How many requests of one of its sessions may be outstanding.
    pub fn window(&self) -> usize
        ensures value { result ≡ self.now.window }
        ensures valid { IsExport self.now }
    {
        self.window
    }

    pub fn info(&self) -> ExportInfo
        ensures size { result.size ≡ self.now.size }
        ensures read_only { result.read_only ≡ self.now.read_only }
    {
        ExportInfo {
            size: self.size,
            read_only: self.read_only,
        }
    }

    /// The transmission flags that a client is told.
    pub fn flags(&self) -> u16
        ensures { result ≡ flags_of self.now }
    {
        if self.read_only {
            HAS_FLAGS | READ_ONLY | SEND_FLUSH | SEND_FUA | CAN_MULTI_CONN | SEND_CACHE
        } else {
            HAS_FLAGS
                | SEND_FLUSH
                | SEND_FUA
                | SEND_TRIM
                | SEND_WRITE_ZEROES
                | CAN_MULTI_CONN
                | SEND_CACHE
        }
    }
}

pub(crate) fn is_above(most: u64, n: u64) -> bool
    ensures { result ≡ nat_lt most n }
{
    n > most
}

pub(crate) fn is_outside(most: u64, n: u64) -> bool
    ensures { result ≡ is_outside most n }
{
    n < 1 || n > most
}

fn is_name_taken<A: Allocator + Copy>(exports: &[ExportConfig<A>], name: &[u8]) -> bool
    ensures { result ≡ is_name_taken exports.now name.now }
{
    exports.iter().any(|e| e.name() == name)
}

fn number_refusal(settings: &ExportSettings<'_>) -> Option<Refusal>
    ensures { result ≡ number_refusal (asked settings.now) }
{
    if is_outside(MAX_SIZE, settings.size) {
        Some(Refusal::BadSize)
    } else if is_above(MAX_RATE, settings.reservation) {
        Some(Refusal::BadReservation)
    } else if is_above(MAX_RATE, settings.limit) {
        Some(Refusal::BadLimit)
    } else if is_outside(MAX_RATE, settings.weight) {
        Some(Refusal::BadWeight)
    } else if is_outside(MAX_QUEUE, settings.depth) {
        Some(Refusal::BadDepth)
    } else if is_outside(MAX_QUEUE, settings.window) {
        Some(Refusal::BadWindow)
    } else if is_above_limit(settings.reservation, settings.limit) {
        Some(Refusal::ReservationAboveLimit)
    } else {
        None
    }
}

fn is_bad_count<A: Allocator + Copy>(exports: &[ExportConfig<A>]) -> bool
    ensures { result ≡ is_outside 64 (length exports.now) }
{
    exports.len() < 1 || exports.len() > MAX_EXPORTS
}

fn is_bad_name(name: &[u8]) -> bool
    ensures { result ≡ is_outside 255 (length name.now) }
{
    name.len() < 1 || name.len() > MAX_NAME
}

fn is_bad_description(description: Option<&[u8]>) -> bool
    ensures { result ≡ nat_lt 4096 (option_map_or length (option_copied description.entry) 0) }
{
    match description {
        Some(text) => text.len() > MAX_DESCRIPTION,
        None => false,
    }
}

// Why the settings of the next export are refused: the first case that fits.
fn first_refusal<A: Allocator + Copy>(
    exports: &[ExportConfig<A>],
    settings: &ExportSettings<'_>,
) -> Option<Refusal>
    ensures { result ≡ first_refusal exports.now (asked settings.now) }
{
    if is_bad_name(settings.name) {
        Some(Refusal::BadName)
    } else if is_name_taken(exports, settings.name) {
        Some(Refusal::RepeatedName)
    } else if is_bad_description(settings.description) {
        Some(Refusal::BadDescription)
    } else {
        number_refusal(settings)
    }
}

// Appends an export of these settings.
fn put<A: Allocator + Copy>(
    exports: &mut Vec<ExportConfig<A>, A>,
    settings: &ExportSettings<'_>,
) -> Result<(), NoMemory>
    requires { IsExport (asked settings.now) }
    ensures added { OnOk result (exports.new.items ≡ exports.old.items ++ asked settings.now ∷ []) }
    ensures unchanged { OnErr result (exports.new.items ≡ exports.old.items) }
{
    let export = ExportConfig::of(*exports.allocator(), settings)?;
    exports.push(export)?;
    Ok(())
}

/// Exports in the order in which they were added. `add` refuses a name that an earlier one has. How many there may be is
/// asked of the whole, by `Config::new`.
#[derive(Drop)]
pub struct ExportList<A: Allocator + Copy> {
    exports: Vec<ExportConfig<A>, A>,
}

impl<A: Allocator + Copy> Model for ExportList<A> {
    ghost use Rattle.std.specs.Prelude.{List};
    ghost use Rattle.nbd_commands.specs.Exports.{Export};

    ghost Value = { List Export };

    ghost view = { λ list. list.exports.items };
}

impl<A: Allocator + Copy> ExportList<A> {
    pub fn new(alloc: A) -> ExportList<A>
        ensures { result ≡ [] }
    {
        ExportList {
            exports: Vec::new(alloc),
        }
    }

    /// Adds an export. A refusal leaves the list as it was, and so does want of memory.
    pub fn add(&mut self, settings: &ExportSettings<'_>) -> Result<(), ConfigError>
        ensures told { refusal_told result ≡ first_refusal self.old (asked settings.now) }
        ensures added { OnOk result (self.new ≡ self.old ++ asked settings.now ∷ []) }
        ensures unchanged { OnErr result (self.new ≡ self.old) }
    {
        if let Some(refusal) = first_refusal(&self.exports, settings) {
            return Err(ConfigError::Refused(refusal));
        }
        if put(&mut self.exports, settings).is_err() {
            return Err(ConfigError::NoMemory);
        }
        Ok(())
    }
}

/// What a server offers: 1 to 64 exports, and how many of its requests may be out at once, 1 to 4,096.
#[derive(Drop)]
pub struct Config<A: Allocator + Copy> {
    exports: Vec<ExportConfig<A>, A>,
    inflight: usize,
}

impl<A: Allocator + Copy> Model for Config<A> {
    ghost use Rattle.nbd_commands.specs.Exports.{Offer, IsOffer};

    ghost Value = { Offer };

    ghost view = { λ c. record { exports = c.exports.items; inflight = c.inflight } };

    ghost invariant = { λ c.
        IsOffer (record { exports = c.exports.items; inflight = c.inflight }) };
}

impl<A: Allocator + Copy> Config<A> {
    /// A list that hasn't 1 to 64 exports is refused first (`ExportCount`), and then a number that isn't 1 to 4,096
    /// (`BadInflight`).
    pub fn new(list: ExportList<A>, inflight: u64) -> Result<Config<A>, Refusal>
        ensures made { IfOk result (λ c. (c ≡ record { exports = list; inflight = inflight })
            × (whole_refusal list inflight ≡ None)) }
        ensures refused { IfErr result (λ refusal. whole_refusal list inflight ≡ Some refusal) }
    {
        if is_bad_count(&list.exports) {
            return Err(Refusal::ExportCount);
        }
        if !is_inflight(inflight) {
            return Err(Refusal::BadInflight);
        }
        Ok(Config {
            exports: list.exports,
            inflight: inflight as usize,
        })
    }

    pub fn exports(&self) -> &[ExportConfig<A>]
        ensures value { result.now ≡ self.now.exports }
        ensures valid { IsOffer self.now }
    {
        self.exports.as_slice()
    }

    /// How many requests may be out at once, of all exports together.
    pub fn inflight(&self) -> usize
        ensures value { result ≡ self.now.inflight }
        ensures valid { IsOffer self.now }
    {
        self.inflight
    }
}
