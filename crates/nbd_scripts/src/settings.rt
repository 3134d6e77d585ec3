//! The settings of an export's line.

ghost use Rattle.std.specs.Prelude.{◌≡◌, None, Some, IsNone, IsSome, OnOk, OnErr, IfOk, IfErr, option_map};
ghost use Rattle.nbd_commands.specs.Refusals.{asked};
ghost use Rattle.nbd_text.specs.Fields.{texts_of};
ghost use Rattle.nbd_scripts.specs.Settings.{spelled_export, key_and_value, no_settings, number_once, settled, with_setting, with_settings, with_value};
ghost use Rattle.nbd_scripts.specs.Heads.{settings_of};

use crate::fault::LineFault;
use crate::lines::place_of;
use crate::numbers::number;
use nbd_commands::ExportSettings;

/// The export of a line, by the fields behind its first.
#[tactic(auto, unfolding(crate::specs::Settings::spelled_export))]
pub fn spelled_export<'a>(
    name: &'a [u8],
    size: &[u8],
    settings: &[&'a [u8]],
) -> Result<ExportSettings<'a>, LineFault>
    ensures said { IfOk result (λ export.
        spelled_export name.now size.now (texts_of settings.now) ≡ Some (asked export)) }
    ensures missed { IfErr result (λ fault. (fault ≡ LineFault.Form)
        × (spelled_export name.now size.now (texts_of settings.now) ≡ None)) }
{
    let Some(digits) = size.strip_prefix(b"size=") else {
        return Err(LineFault::Form);
    };
    let plain = ExportSettings::new(name, number(digits)?);
    let written = Written::all(settings)?;
    Ok(written.settings(plain))
}

/// The settings that an export's line has written behind its size so far.
#[derive(Drop)]
struct Written<'a> {
    description: Option<&'a [u8]>,
    read_only: Option<bool>,
    reservation: Option<u64>,
    limit: Option<u64>,
    weight: Option<u64>,
    depth: Option<u64>,
    window: Option<u64>,
}

impl<'a> Written<'a> {
    fn new() -> Written<'a>
        ensures { settings_of result ≡ no_settings }
    {
        Written {
            description: None,
            read_only: None,
            reservation: None,
            limit: None,
            weight: None,
            depth: None,
            window: None,
        }
    }

    /// The settings that these fields write.
    fn all(fields: &[&'a [u8]]) -> Result<Written<'a>, LineFault>
        ensures said { IfOk result (λ written.
            with_settings no_settings (texts_of fields.now) ≡ Some (settings_of written)) }
        ensures missed { IfErr result (λ fault. (fault ≡ LineFault.Form)
            × (with_settings no_settings (texts_of fields.now) ≡ None)) }
    {
        let mut written = Written::new();
        for &field in fields {
            written.field(field)?;
        }
        Ok(written)
    }

    /// Takes one setting: `ro`, or a key and a value.
    #[tactic(auto, unfolding(crate::specs::Settings::with_setting))]
    fn field(&mut self, field: &'a [u8]) -> Result<(), LineFault>
        ensures taken { OnOk result (with_setting (settings_of self.old) field.now
            ≡ Some (settings_of self.new)) }
        ensures refused { IfErr result (λ fault. (fault ≡ LineFault.Form)
            × (with_setting (settings_of self.old) field.now ≡ None)) }
    {
        if field == b"ro".as_slice() {
            return once(&mut self.read_only, true);
        }
        let Some((key, value)) = key_and_value(field) else {
            return Err(LineFault::Form);
        };
        self.value(key, value)
    }

    /// Takes the value of a key.
    #[tactic(auto, unfolding(crate::specs::Settings::with_value))]
    fn value(&mut self, key: &[u8], value: &'a [u8]) -> Result<(), LineFault>
        ensures taken { OnOk result (with_value (settings_of self.old) key.now value.now
            ≡ Some (settings_of self.new)) }
        ensures refused { IfErr result (λ fault. (fault ≡ LineFault.Form)
            × (with_value (settings_of self.old) key.now value.now ≡ None)) }
    {
        if key == b"desc".as_slice() {
            return once(&mut self.description, value);
        }
        if key == b"r".as_slice() {
            return number_once(&mut self.reservation, value);
        }
        if key == b"l".as_slice() {
            return number_once(&mut self.limit, value);
        }
        if key == b"w".as_slice() {
            return number_once(&mut self.weight, value);
        }
        if key == b"depth".as_slice() {
            return number_once(&mut self.depth, value);
        }
        if key == b"window".as_slice() {
            return number_once(&mut self.window, value);
        }
        Err(LineFault::Form)
    }

    /// The settings, each by its default where it isn't written.
    fn settings(self, plain: ExportSettings<'a>) -> ExportSettings<'a>
        ensures { asked result ≡ settled (asked plain.entry) (settings_of self.entry) }
    {
        ExportSettings {
            description: self.description,
            read_only: self.read_only.unwrap_or(plain.read_only),
            reservation: self.reservation.unwrap_or(plain.reservation),
            limit: self.limit.unwrap_or(plain.limit),
            weight: self.weight.unwrap_or(plain.weight),
            depth: self.depth.unwrap_or(plain.depth),
            window: self.window.unwrap_or(plain.window),
            ..plain
        }
    }
}

/// The key and the value of a field `KEY=VALUE`.
fn key_and_value(field: &[u8]) -> Option<(&[u8], &[u8])>
    ensures { option_map (λ pair. (pair.0.now, pair.1.now)) result ≡ key_and_value field.now }
{
    let at = place_of(b'=', field)?;
    Some((&field[..at], &field[at + 1..]))
}

/// Keeps a setting that may be written once.
fn once<T: Copy>(place: &mut Option<T>, value: T) -> Result<(), LineFault>
    ensures kept { OnOk result (IsNone place.old × (place.new ≡ Some value)) }
    ensures twice { OnErr result (IsSome place.old × (place.new ≡ place.old)) }
    ensures form { IfErr result (λ fault. fault ≡ LineFault.Form) }
{
    if place.is_some() {
        return Err(LineFault::Form);
    }
    *place = Some(value);
    Ok(())
}

/// Keeps a number that may be written once.
fn number_once(place: &mut Option<u64>, digits: &[u8]) -> Result<(), LineFault>
    ensures kept { OnOk result (number_once place.old digits.now ≡ Some place.new) }
    ensures missed { IfErr result (λ fault. (fault ≡ LineFault.Form)
        × (number_once place.old digits.now ≡ None)) }
{
    once(place, number(digits)?)
}
