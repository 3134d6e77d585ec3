//! The answer to `stats`: a line for the server, and one for each export.

ghost use Rattle.std.specs.Prelude.{◌≡◌, ◌++◌, OnOk, OnErr};
ghost use Rattle.std.specs.List.{flat_map};
ghost use Rattle.nbd_control.specs.Stats.{export_field, export_line, field_text, server_field, server_line, stats_text};

use crate::command::Rates;
use crate::figures::{
    EXPORT_FIGURES, ExportFigure, Reading, Row, SERVER_FIGURES, ServerFigure, put_reading,
};
use crate::quoting::put_basic;
use nbd_base::NoMemory;
use nbd_measures::WaitQuantiles;
use nbd_text::or_no_memory;
use std::alloc::Allocator;
use std::io::Write;

/// What is told of the server. Times are in nanoseconds.
#[derive(Clone, Copy, Debug, PartialEq, Eq)]
pub struct ServerStats {
    /// Since the server started.
    pub uptime: u64,
    /// That are open.
    pub connections: u64,
    /// Requests of all exports that are in service.
    pub in_service: u64,
    /// How often threads of sessions held the server.
    pub holds: u64,
    /// The longest of these holds that ended in the last whole second.
    pub longest_hold: u64,
}

/// What is told of an export.
#[derive(Clone, Copy, Debug, PartialEq, Eq)]
pub struct ExportStats<'a> {
    pub name: &'a [u8],
    /// In bytes.
    pub size: u64,
    /// The bytes of its pages that have memory, and of those that are kept as zeros.
    pub held_bytes: u64,
    /// Those of the disk as it was before the steps of its log. None where that isn't known while steps are queued for it.
    pub base_bytes: Option<u64>,
    /// The data of the WRITEs in its log.
    pub log_bytes: u64,
    /// That are open.
    pub sessions: u64,
    /// Requests that wait.
    pub waiting: u64,
    /// That the export made since the server started.
    pub steps: u64,
    /// Requests that were chosen by reservation.
    pub by_reservation: u64,
    /// Requests that were chosen by weight.
    pub by_weight: u64,
    /// Requests that were answered with an error.
    pub errors: u64,
    /// The bytes that READs asked for, those aside that were refused as they arrived.
    pub read_bytes: u64,
    /// The bytes that WRITEs carried, likewise.
    pub written_bytes: u64,
    /// Those in force.
    pub rates: Rates,
    /// How long the latest 1,024 requests that were chosen had waited.
    pub waits: WaitQuantiles,
}

/// Puts the answer to `stats` behind a text. Where memory is refused, the text stays.
pub fn write_stats<A: Allocator + Copy>(
    alloc: A,
    server: &ServerStats,
    exports: &[ExportStats<'_>],
    text: &mut Vec<u8, A>,
) -> Result<(), NoMemory>
    ensures ok { OnOk result (text.new.items ≡ text.old.items
        ++ stats_text server.now exports.now) }
    ensures err { OnErr result (text.new.items ≡ text.old.items) }
{
    let mut answer = Vec::new(alloc);
    put_stats(server, exports, &mut answer)?;
    text.extend_from_slice(&answer)?;
    Ok(())
}

fn put_stats<A: Allocator>(
    server: &ServerStats,
    exports: &[ExportStats<'_>],
    text: &mut Vec<u8, A>,
) -> Result<(), NoMemory>
    ensures { OnOk result (text.new.items ≡ text.old.items ++ stats_text server.now exports.now) }
{
    put_server(server, text)?;
    put_exports(exports, text)?;
    text.extend_from_slice(b"\n")?;
    Ok(())
}

/// Puts the line of the server behind a text.
fn put_server<A: Allocator>(server: &ServerStats, text: &mut Vec<u8, A>) -> Result<(), NoMemory>
    ensures { OnOk result (text.new.items ≡ text.old.items ++ server_line server.now) }
{
    text.extend_from_slice(b"server")?;
    put_server_fields(&SERVER_FIGURES, server, text)?;
    text.extend_from_slice(b"\n")?;
    Ok(())
}

/// Puts figures of the server behind a text.
fn put_server_fields<A: Allocator>(
    figures: &[ServerFigure],
    server: &ServerStats,
    text: &mut Vec<u8, A>,
) -> Result<(), NoMemory>
    ensures { OnOk result (text.new.items ≡ text.old.items
        ++ flat_map (server_field server.now) figures.now) }
{
    for &figure in figures {
        put_field(figure.row(), figure.reading(server), text)?;
    }
    Ok(())
}

/// Puts the line of each export behind a text.
fn put_exports<A: Allocator>(
    exports: &[ExportStats<'_>],
    text: &mut Vec<u8, A>,
) -> Result<(), NoMemory>
    ensures { OnOk result (text.new.items ≡ text.old.items ++ flat_map export_line exports.now) }
{
    for export in exports {
        put_export(export, text)?;
    }
    Ok(())
}

/// Puts the line of an export behind a text.
fn put_export<A: Allocator>(export: &ExportStats<'_>, text: &mut Vec<u8, A>) -> Result<(), NoMemory>
    ensures { OnOk result (text.new.items ≡ text.old.items ++ export_line export.now) }
{
    text.extend_from_slice(b"export name=")?;
    put_basic(export.name, text)?;
    put_export_fields(&EXPORT_FIGURES, export, text)?;
    text.extend_from_slice(b"\n")?;
    Ok(())
}

/// Puts figures of an export behind a text.
fn put_export_fields<A: Allocator>(
    figures: &[ExportFigure],
    export: &ExportStats<'_>,
    text: &mut Vec<u8, A>,
) -> Result<(), NoMemory>
    ensures { OnOk result (text.new.items ≡ text.old.items
        ++ flat_map (export_field export.now) figures.now) }
{
    for &figure in figures {
        put_field(figure.row(), figure.reading(export), text)?;
    }
    Ok(())
}

/// Puts a field behind a text: a space, the figure's name, and its value.
fn put_field<A: Allocator>(
    row: Row,
    reading: Reading,
    text: &mut Vec<u8, A>,
) -> Result<(), NoMemory>
    ensures { OnOk result (text.new.items ≡ text.old.items ++ field_text row.name.now reading) }
{
    let name = row.name;
    or_no_memory(write!(text, " {name}="))?;
    put_reading("-", reading, text)?;
    Ok(())
}
