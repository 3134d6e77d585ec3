//! A configuration out of the text of its file.

ghost use Rattle.std.specs.Prelude.{◌≡◌, ◌++◌, ◌∷◌, [], Ok, Err, IfOk, IfErr, OnOk, length};
ghost use Rattle.std.specs.Result.{result_map_both};
ghost use Rattle.toml.specs.Errors.{IsMemory};
ghost use Rattle.toml.specs.View.{view, table_view};
ghost use Rattle.nbd_commands.specs.Refusals.{asked, is_outside};
ghost use Rattle.nbd_config.specs.Entries.{values_of};
ghost use Rattle.nbd_config.specs.Configured.{configured_by, configured, top_refusal, exports_behind, next_export, export_asked, IsNext, IfRefused, refused};

use crate::entries::{export_in, exports_at, inflight_at, is_fit};
use crate::refusals::{FileError, FileRefusal, Place, Reason};
use nbd_commands::{
    Config, ConfigError, ExportList, ExportSettings, MAX_EXPORTS, Refusal, is_inflight,
};
use std::alloc::{Allocator, Global};
use toml::de::Error;
use toml::{Table, Value};

/// Reads the text of a configuration file.
///
/// The table of the text lies in `heap` for the time of the call, the configuration in `alloc`.
pub fn read_config<A: Allocator + Copy>(
    heap: Global,
    alloc: A,
    text: &[u8],
) -> Result<Config<A>, FileError>
    ensures read { IfOk result (λ config. configured_by text.now ≡ Ok config) }
    ensures refused { IfErr result (IfRefused (λ refusal. configured_by text.now ≡ Err refusal)) }
{
    match toml::table_from_slice(heap, text) {
        Ok(table) => config_of(alloc, &table),
        Err(error) => Err(unparsed(&error)),
    }
}

/// What a text that was not parsed comes to.
fn unparsed(error: &Error) -> FileError
    ensures no_memory { IsMemory error.now → result ≡ FileError.NoMemory }
    ensures refused { IfRefused (λ refusal. (refusal ≡ refused Place.Top Reason.NotToml)
        × (¬ IsMemory error.now)) result }
{
    if error.is_memory() {
        FileError::NoMemory
    } else {
        refused(Place::Top, Reason::NotToml)
    }
}

/// Reads a table, first its top level and then each export in order.
fn config_of<A: Allocator + Copy>(alloc: A, table: &Table) -> Result<Config<A>, FileError>
    ensures read { IfOk result (λ config. configured (table_view table.now) ≡ Ok config) }
    ensures refused { IfErr result (IfRefused (λ refusal.
        configured (table_view table.now) ≡ Err refusal)) }
{
    if let Some(reason) = top_refusal(table) {
        return Err(refused(Place::Top, reason));
    }
    let list = match exports_of(alloc, exports_at(table)) {
        Ok(list) => list,
        Err(error) => return Err(error),
    };
    match Config::new(list, inflight_at(table)) {
        Ok(config) => Ok(config),
        Err(refusal) => Err(refused(Place::Top, Reason::Value(refusal))),
    }
}

// Why the top level is refused, by the first case that fits.
fn top_refusal(table: &Table) -> Option<Reason>
    ensures { result ≡ top_refusal (table_view table.now) }
{
    if !is_fit(table, Place::Top) {
        Some(Reason::BadEntry)
    } else if is_bad_count(exports_at(table)) {
        Some(Reason::Value(Refusal::ExportCount))
    } else if !is_inflight(inflight_at(table)) {
        Some(Reason::Value(Refusal::BadInflight))
    } else {
        None
    }
}

fn is_bad_count(values: &[Value]) -> bool
    ensures { result ≡ is_outside 64 (length (values_of values.now)) }
{
    values.len() < 1 || values.len() > MAX_EXPORTS
}

/// Reads the exports in order, up to the first that is refused.
fn exports_of<A: Allocator + Copy>(alloc: A, values: &[Value]) -> Result<ExportList<A>, FileError>
    ensures read { IfOk result (λ list. exports_behind [] (values_of values.now) ≡ Ok list) }
    ensures refused { IfErr result (IfRefused (λ refusal.
        exports_behind [] (values_of values.now) ≡ Err refusal)) }
{
    let mut list = ExportList::new(alloc);
    for (at, value) in values.iter().enumerate() {
        if let Err(error) = add_export(at, value, &mut list) {
            return Err(error);
        }
    }
    Ok(list)
}

/// Adds the export that a value asks for.
fn add_export<A: Allocator + Copy>(
    at: usize,
    value: &Value,
    list: &mut ExportList<A>,
) -> Result<(), FileError>
    ensures added { OnOk result (IsNext list.old (view value.now) list.new) }
    ensures refused { IfErr result (IfRefused (λ refusal. (next_export list.old (view value.now)
        ≡ Err refusal.reason) × (refusal.place ≡ Place.Export at))) }
{
    let place = Place::Export(at);
    let settings = match export_asked(at, value) {
        Ok(settings) => settings,
        Err(reason) => return Err(refused(place, reason)),
    };
    match list.add(&settings) {
        Ok(()) => Ok(()),
        Err(ConfigError::Refused(refusal)) => Err(refused(place, Reason::Value(refusal))),
        Err(ConfigError::NoMemory) => Err(FileError::NoMemory),
    }
}

/// The settings that a value asks for, or why it asks for none.
fn export_asked(at: usize, value: &Value) -> Result<ExportSettings<'_>, Reason>
    ensures { result_map_both asked (λ reason. reason) result ≡ export_asked (view value.now) }
{
    let Some(table) = value.as_table() else {
        return Err(Reason::BadEntry);
    };
    if !is_fit(table, Place::Export(at)) {
        return Err(Reason::BadEntry);
    }
    match export_in(table) {
        Some(settings) => Ok(settings),
        None => Err(Reason::MissingKey),
    }
}

fn refused(place: Place, reason: Reason) -> FileError
    ensures { result ≡ FileError.Refused (refused place reason) }
{
    FileError::Refused(FileRefusal { reason, place })
}
