//! The lines of a script.

ghost use Rattle.std.specs.Prelude.{◌≡◌, ◌==◌, ◌<◌, length, position, IfErr};
ghost use Rattle.std.specs.Option.{option_copied};
ghost use Rattle.std.specs.Result.{result_ok};
ghost use Rattle.std.specs.List.{before_first, after_first};
ghost use Rattle.nbd_text.specs.Fields.{texts_of};
ghost use Rattle.nbd_scripts.specs.Lines.{is_comment, is_feed, only};

use crate::fault::LineFault;

/// The line at the front, and the bytes behind it.
pub fn first_line(bytes: &[u8]) -> (&[u8], &[u8])
    requires { 0 < length bytes.now }
    ensures line { result.0.now ≡ before_first is_feed bytes.now }
    ensures behind { result.1.now ≡ after_first is_feed bytes.now }
    ensures shorter { length result.1.now < length bytes.now }
{
    match place_of(b'\n', bytes) {
        Some(at) => (&bytes[..at], &bytes[at + 1..]),
        None => (bytes, &[]),
    }
}

/// Where a byte stands first.
pub fn place_of(sought: u8, bytes: &[u8]) -> Option<usize>
    ensures { result ≡ position (λ byte. byte == sought) bytes.now }
{
    bytes.iter().position(|byte| *byte == sought)
}

/// Whether a line begins with `#`.
pub fn is_comment(line: &[u8]) -> bool
    ensures { result ≡ is_comment line.now }
{
    match line {
        [] => false,
        [byte, ..] => *byte == b'#',
    }
}

/// The one field that there is.
pub fn only<'a>(fields: &[&'a [u8]]) -> Result<&'a [u8], LineFault>
    ensures field { option_copied (result_ok result) ≡ only (texts_of fields.now) }
    ensures fault { IfErr result (λ fault. fault ≡ LineFault.Form) }
{
    match fields {
        [field] => Ok(*field),
        _ => Err(LineFault::Form),
    }
}
