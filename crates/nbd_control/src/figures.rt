//! The figures that are told of the server and of an export: their names, what they mean, and their values.

ghost use Rattle.std.specs.Prelude.{◌≡◌, ◌++◌, codes, OnOk};
ghost use Rattle.std.specs.Fmt.{decimal};
ghost use Rattle.nbd_control.specs.Figures.{counter, gauge, export_reading, export_row, kind_word, known, nine_digits, reading_text, row_of, seconds_text, server_reading, server_row, waited};

use crate::stats::{ExportStats, ServerStats};
use nbd_base::NoMemory;
use nbd_text::or_no_memory;
use std::alloc::Allocator;
use std::io::Write;

/// What a figure is: a count that never falls while the server runs, or what goes up and down.
#[derive(Clone, Copy, Debug, PartialEq, Eq)]
pub enum Kind {
    Counter,
    Gauge,
}

/// The value of a figure.
#[derive(Clone, Copy, Debug, PartialEq, Eq)]
pub enum Reading {
    Number(u64),
    /// In nanoseconds.
    Time(u64),
    /// There is none yet.
    Nothing,
}

/// The name of a figure, what it means, and its kind.
#[derive(Clone, Copy, Debug)]
pub struct Row {
    pub name: &'static str,
    pub help: &'static str,
    pub kind: Kind,
}

/// A figure of the server.
#[derive(Clone, Copy, Debug, PartialEq, Eq)]
pub enum ServerFigure {
    Uptime,
    Connections,
    InService,
    Holds,
    LongestHold,
}

/// A figure of an export.
#[derive(Clone, Copy, Debug, PartialEq, Eq)]
pub enum ExportFigure {
    Size,
    HeldBytes,
    BaseBytes,
    LogBytes,
    Sessions,
    Waiting,
    Steps,
    ByReservation,
    ByWeight,
    Errors,
    ReadBytes,
    WrittenBytes,
    Reservation,
    Limit,
    Weight,
    MedianWait,
    LongWait,
}

/// The figures of the server, in the order in which they are told.
pub const SERVER_FIGURES: [ServerFigure; 5] = [
    ServerFigure::Uptime,
    ServerFigure::Connections,
    ServerFigure::InService,
    ServerFigure::Holds,
    ServerFigure::LongestHold,
];

/// The figures of an export, in the order in which they are told.
pub const EXPORT_FIGURES: [ExportFigure; 17] = [
    ExportFigure::Size,
    ExportFigure::HeldBytes,
    ExportFigure::BaseBytes,
    ExportFigure::LogBytes,
    ExportFigure::Sessions,
    ExportFigure::Waiting,
    ExportFigure::Steps,
    ExportFigure::ByReservation,
    ExportFigure::ByWeight,
    ExportFigure::Errors,
    ExportFigure::ReadBytes,
    ExportFigure::WrittenBytes,
    ExportFigure::Reservation,
    ExportFigure::Limit,
    ExportFigure::Weight,
    ExportFigure::MedianWait,
    ExportFigure::LongWait,
];

fn counter(name: &'static str, help: &'static str) -> Row
    ensures { row_of result ≡ counter name.now help.now }
{
    Row {
        name,
        help,
        kind: Kind::Counter,
    }
}

fn gauge(name: &'static str, help: &'static str) -> Row
    ensures { row_of result ≡ gauge name.now help.now }
{
    Row {
        name,
        help,
        kind: Kind::Gauge,
    }
}

impl ServerFigure {
    /// Its name, what it means, and its kind.
    pub fn row(self) -> Row
        ensures { row_of result ≡ server_row self }
    {
        match self {
            ServerFigure::Uptime => gauge("uptime_seconds", "Time since the server started."),
            ServerFigure::Connections => gauge("connections", "Connections that are open."),
            ServerFigure::InService => gauge("requests_in_service", "Requests in service."),
            ServerFigure::Holds => counter("holds_total", "Holds of the server."),
            ServerFigure::LongestHold => gauge(
                "longest_hold_seconds",
                "Longest hold of the server in the last whole second.",
            ),
        }
    }

    /// Its value.
    pub fn reading(self, stats: &ServerStats) -> Reading
        ensures { result ≡ server_reading stats.now self }
    {
        match self {
            ServerFigure::Uptime => Reading::Time(stats.uptime),
            ServerFigure::Connections => Reading::Number(stats.connections),
            ServerFigure::InService => Reading::Number(stats.in_service),
            ServerFigure::Holds => Reading::Number(stats.holds),
            ServerFigure::LongestHold => Reading::Time(stats.longest_hold),
        }
    }
}

impl ExportFigure {
    /// Its name, what it means, and its kind.
    pub fn row(self) -> Row
        ensures { row_of result ≡ export_row self }
    {
        let help = self.help();
        match self {
            ExportFigure::Size => gauge("size_bytes", help),
            ExportFigure::HeldBytes => gauge("held_bytes", help),
            ExportFigure::BaseBytes => gauge("base_bytes", help),
            ExportFigure::LogBytes => gauge("log_bytes", help),
            ExportFigure::Sessions => gauge("sessions", help),
            ExportFigure::Waiting => gauge("requests_waiting", help),
            ExportFigure::Steps => counter("steps_total", help),
            ExportFigure::ByReservation => counter("chosen_by_reservation_total", help),
            ExportFigure::ByWeight => counter("chosen_by_weight_total", help),
            ExportFigure::Errors => counter("errors_total", help),
            ExportFigure::ReadBytes => counter("read_bytes_total", help),
            ExportFigure::WrittenBytes => counter("written_bytes_total", help),
            ExportFigure::Reservation => gauge("reservation_per_second", help),
            ExportFigure::Limit => gauge("limit_per_second", help),
            ExportFigure::Weight => gauge("weight", help),
            ExportFigure::MedianWait => gauge("wait_median_seconds", help),
            ExportFigure::LongWait => gauge("wait_p99_seconds", help),
        }
    }

    /// What it means.
    fn help(self) -> &'static str
        ensures { result.now ≡ (export_row self).help }
    {
        match self {
            ExportFigure::Size => "Size of the disk.",
            ExportFigure::HeldBytes => "Bytes of pages that have memory or are kept as zeros.",
            ExportFigure::BaseBytes => "Bytes of such pages of the disk before its latest steps.",
            ExportFigure::LogBytes => "Bytes of WRITEs in its latest steps.",
            ExportFigure::Sessions => "Sessions that are open.",
            ExportFigure::Waiting => "Requests that wait.",
            ExportFigure::Steps => "Steps of the export.",
            ExportFigure::ByReservation => "Requests chosen by reservation.",
            ExportFigure::ByWeight => "Requests chosen by weight.",
            ExportFigure::Errors => "Requests answered with an error.",
            ExportFigure::ReadBytes => "Bytes read.",
            ExportFigure::WrittenBytes => "Bytes written.",
            ExportFigure::Reservation => "Reserved requests a second, 0 for none.",
            ExportFigure::Limit => "Limit in requests a second, 0 for none.",
            ExportFigure::Weight => "Weight among the exports.",
            ExportFigure::MedianWait => "Median wait of the latest 1024 requests.",
            ExportFigure::LongWait =>
                "Wait that 99 of 100 of the latest 1024 requests didn't exceed.",
        }
    }

    /// Its value.
    pub fn reading(self, stats: &ExportStats<'_>) -> Reading
        ensures { result ≡ export_reading stats.now self }
    {
        match self {
            ExportFigure::Size => Reading::Number(stats.size),
            ExportFigure::HeldBytes => Reading::Number(stats.held_bytes),
            ExportFigure::BaseBytes => known(stats.base_bytes),
            ExportFigure::LogBytes => Reading::Number(stats.log_bytes),
            ExportFigure::Sessions => Reading::Number(stats.sessions),
            ExportFigure::Waiting => Reading::Number(stats.waiting),
            ExportFigure::Steps => Reading::Number(stats.steps),
            ExportFigure::ByReservation => Reading::Number(stats.by_reservation),
            ExportFigure::ByWeight => Reading::Number(stats.by_weight),
            ExportFigure::Errors => Reading::Number(stats.errors),
            ExportFigure::ReadBytes => Reading::Number(stats.read_bytes),
            ExportFigure::WrittenBytes => Reading::Number(stats.written_bytes),
            ExportFigure::Reservation => Reading::Number(stats.rates.reservation),
            ExportFigure::Limit => Reading::Number(stats.rates.limit),
            ExportFigure::Weight => Reading::Number(stats.rates.weight),
            ExportFigure::MedianWait => waited(stats.waits.median),
            ExportFigure::LongWait => waited(stats.waits.p99),
        }
    }
}

/// A number, where it is known.
fn known(number: Option<u64>) -> Reading
    ensures { result ≡ known number }
{
    match number {
        Some(number) => Reading::Number(number),
        None => Reading::Nothing,
    }
}

/// How long requests waited, where some did.
fn waited(nanoseconds: Option<u64>) -> Reading
    ensures { result ≡ waited nanoseconds }
{
    match nanoseconds {
        Some(time) => Reading::Time(time),
        None => Reading::Nothing,
    }
}

/// The word for a kind.
pub fn kind_word(kind: Kind) -> &'static str
    ensures { result.now ≡ kind_word kind }
{
    match kind {
        Kind::Counter => "counter",
        Kind::Gauge => "gauge",
    }
}

/// Puts a value behind a text, or `none` where there is none.
pub fn put_reading<A: Allocator>(
    none: &str,
    reading: Reading,
    text: &mut Vec<u8, A>,
) -> Result<(), NoMemory>
    ensures { OnOk result (text.new.items ≡ text.old.items ++ reading_text none.now reading) }
{
    match reading {
        Reading::Number(number) => or_no_memory(write!(text, "{number}")),
        Reading::Time(nanoseconds) => put_seconds(nanoseconds, text),
        Reading::Nothing => or_no_memory(write!(text, "{none}")),
    }
}

/// Puts a time behind a text, in seconds with nine digits behind the point.
pub fn put_seconds<A: Allocator>(nanoseconds: u64, text: &mut Vec<u8, A>) -> Result<(), NoMemory>
    ensures { OnOk result (text.new.items ≡ text.old.items ++ seconds_text nanoseconds) }
{
    put_whole_seconds(nanoseconds / 1_000_000_000, text)?;
    put_nine_digits(nanoseconds % 1_000_000_000, text)?;
    Ok(())
}

fn put_whole_seconds<A: Allocator>(seconds: u64, text: &mut Vec<u8, A>) -> Result<(), NoMemory>
    ensures { OnOk result (text.new.items ≡ text.old.items ++ (decimal seconds ++ codes ".")) }
{
    or_no_memory(write!(text, "{seconds}."))
}

/// Puts a number behind a text, with as many zeros in front as make nine digits.
#[tactic(auto, using(crate::proofs::FigureLemmas::padded_nine))]
fn put_nine_digits<A: Allocator>(number: u64, text: &mut Vec<u8, A>) -> Result<(), NoMemory>
    ensures { OnOk result (text.new.items ≡ text.old.items ++ nine_digits number) }
{
    or_no_memory(write!(text, "{number:09}"))
}
