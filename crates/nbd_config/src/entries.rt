//! The keys of a configuration file, and what stands at them.

ghost use Rattle.std.specs.Prelude.{◌≡◌, option_map, option_copied};
ghost use Rattle.toml.specs.Data.{get_member};
ghost use Rattle.toml.specs.View.{view, table_view};
ghost use Rattle.nbd_commands.specs.Refusals.{asked};
ghost use Rattle.nbd_config.specs.Entries.{fits, fits_top, fits_export, all_members, text_at, truth_at, number_at, ranged, values_of, exports_at, inflight_at, export_in};

use crate::refusals::Place;
use nbd_commands::{DEFAULT_INFLIGHT, ExportSettings};
use toml::{Table, Value};

/// Whether a table at this place has no unknown key, and no value of another kind than its key's.
pub fn is_fit(table: &Table, place: Place) -> bool
    ensures { result ≡ all_members (fits place) (table_view table.now) }
{
    for (key, value) in table.iter() {
        if !fits(place, key.as_str(), value) {
            return false;
        }
    }
    true
}

fn fits(place: Place, key: &str, value: &Value) -> bool
    ensures { result ≡ fits place key.now (view value.now) }
{
    match place {
        Place::Top => fits_top(key, value),
        Place::Export(_) => fits_export(key, value),
    }
}

fn fits_top(key: &str, value: &Value) -> bool
    ensures { result ≡ fits_top key.now (view value.now) }
{
    match key {
        "inflight" => value.is_integer(),
        "export" => value.is_array(),
        _ => false,
    }
}

fn fits_export(key: &str, value: &Value) -> bool
    ensures { result ≡ fits_export key.now (view value.now) }
{
    match key {
        "name" | "description" => value.is_str(),
        "read_only" => value.is_bool(),
        "size" | "reservation" | "limit" | "weight" | "depth" | "window" => value.is_integer(),
        _ => false,
    }
}

/// The values of the list of exports, none where there is no list.
pub fn exports_at(table: &Table) -> &[Value]
    ensures { values_of result.now ≡ exports_at (table_view table.now) }
{
    let Some(value) = value_at(table, "export") else {
        return &[];
    };
    match value.as_array() {
        Some(values) => values.as_slice(),
        None => &[],
    }
}

/// How many requests may be out at once.
pub fn inflight_at(table: &Table) -> u64
    ensures { result ≡ inflight_at (table_view table.now) }
{
    number_at(table, "inflight").unwrap_or(DEFAULT_INFLIGHT)
}

/// What is asked for an export, each value by its default where its key isn't there; none where the name or the size isn't.
pub fn export_in(table: &Table) -> Option<ExportSettings<'_>>
    ensures { option_map asked result ≡ export_in (table_view table.now) }
{
    let Some(name) = text_at(table, "name") else {
        return None;
    };
    let Some(size) = number_at(table, "size") else {
        return None;
    };
    let plain = ExportSettings::new(name, size);
    Some(ExportSettings {
        description: text_at(table, "description"),
        read_only: truth_at(table, "read_only").unwrap_or(plain.read_only),
        reservation: number_at(table, "reservation").unwrap_or(plain.reservation),
        limit: number_at(table, "limit").unwrap_or(plain.limit),
        weight: number_at(table, "weight").unwrap_or(plain.weight),
        depth: number_at(table, "depth").unwrap_or(plain.depth),
        window: number_at(table, "window").unwrap_or(plain.window),
        ..plain
    })
}

fn value_at<'a>(table: &'a Table, key: &str) -> Option<&'a Value>
    ensures { option_map (λ value. view value.now) result
        ≡ get_member key.now (table_view table.now) }
{
    table.get(key)
}

fn text_at<'a>(table: &'a Table, key: &str) -> Option<&'a [u8]>
    ensures { option_copied result ≡ text_at key.now (table_view table.now) }
{
    match value_at(table, key) {
        Some(value) => match value.as_str() {
            Some(text) => Some(text.as_bytes()),
            None => None,
        },
        None => None,
    }
}

fn truth_at(table: &Table, key: &str) -> Option<bool>
    ensures { result ≡ truth_at key.now (table_view table.now) }
{
    match value_at(table, key) {
        Some(value) => value.as_bool(),
        None => None,
    }
}

fn number_at(table: &Table, key: &str) -> Option<u64>
    ensures { result ≡ number_at key.now (table_view table.now) }
{
    match value_at(table, key) {
        Some(value) => match value.as_integer() {
            Some(number) => Some(ranged(number)),
            None => None,
        },
        None => None,
    }
}

// A number below 0 is in no range, and the greatest is in none.
fn ranged(number: i64) -> u64
    ensures { result ≡ ranged number }
{
    if number < 0 { u64::MAX } else { number as u64 }
}
