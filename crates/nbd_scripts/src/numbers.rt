//! The numbers of a script.

ghost use Rattle.std.specs.Prelude.{◌≡◌, ◌^◌};
ghost use Rattle.std.specs.Option.{ok_or};
ghost use Rattle.nbd_text.specs.Numbers.{number_below};

use crate::fault::LineFault;
use tag_clock::Moment;

/// A number in decimal digits that fits 64 bits.
pub fn number(digits: &[u8]) -> Result<u64, LineFault>
    ensures { result ≡ ok_or (number_below (2 ^ 64) digits.now) LineFault.Form }
{
    nbd_text::number(digits).ok_or(LineFault::Form)
}

/// A number that fits 32 bits.
pub fn word(digits: &[u8]) -> Result<u32, LineFault>
    ensures { result ≡ ok_or (number_below (2 ^ 32) digits.now) LineFault.Form }
{
    match u32::try_from(number(digits)?) {
        Ok(value) => Ok(value),
        Err(_) => Err(LineFault::Form),
    }
}

/// A number that fits 16 bits.
pub fn half_word(digits: &[u8]) -> Result<u16, LineFault>
    ensures { result ≡ ok_or (number_below (2 ^ 16) digits.now) LineFault.Form }
{
    match u16::try_from(number(digits)?) {
        Ok(value) => Ok(value),
        Err(_) => Err(LineFault::Form),
    }
}

/// A moment in nanoseconds, below 2^62.
pub fn moment(digits: &[u8]) -> Result<Moment, LineFault>
    ensures { result ≡ ok_or (number_below (2 ^ 62) digits.now) LineFault.Form }
{
    match Moment::new(number(digits)?) {
        Some(moment) => Ok(moment),
        None => Err(LineFault::Form),
    }
}
