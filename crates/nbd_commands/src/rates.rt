//! Rates that an export is given while it runs.
ghost use Rattle.std.specs.Prelude.{◌≡◌, ◌&&◌, nat_lt};
ghost use Rattle.tag_clock.specs.Intervals.{AreRates, intervals_of};
ghost use Rattle.nbd_commands.specs.Refusals.{rates_refusal, rates_told};

use crate::config::{MAX_RATE, is_above, is_outside};
use crate::settings::{ConfigError, Refusal};
use std::marker::Model;
use tag_clock::Tuning;

/// A reservation, a limit and a weight that an export may have.
#[derive(Clone, Copy, Debug, PartialEq, Eq)]
pub struct Rates {
    tuning: Tuning,
}

impl Model for Rates {
    ghost use Rattle.tag_clock.specs.Intervals.{Intervals};

    ghost Value = { Intervals };

    ghost view = { λ rates. rates.tuning };

    ghost inverse = { λ intervals. record { tuning = intervals } };
}

impl Rates {
    /// A reservation and a limit in requests a second, 0 for none, and a weight: as for an export that is configured.
    ///
    /// It wants no memory.
    pub fn new(reservation: u64, limit: u64, weight: u64) -> Result<Rates, ConfigError>
        ensures { result ≡ rates_told reservation limit weight }
    {
        if let Some(refusal) = rates_refusal(reservation, limit, weight) {
            return Err(ConfigError::Refused(refusal));
        }
        Ok(Rates {
            tuning: tuning_of(reservation, limit, weight),
        })
    }

    /// How far the tags of requests lie apart at these rates.
    pub fn tuning(self) -> Tuning
        ensures { result ≡ self }
    {
        self.tuning
    }
}

fn tuning_of(reservation: u64, limit: u64, weight: u64) -> Tuning
    requires { AreRates reservation limit weight }
    ensures { result ≡ intervals_of reservation limit weight }
{
    let Some(tuning) = Tuning::new(reservation as u32, limit as u32, weight as u32) else {
        unreachable!();
    };
    tuning
}

pub(crate) fn is_above_limit(reservation: u64, limit: u64) -> bool
    ensures { result ≡ (nat_lt 0 limit && nat_lt limit reservation) }
{
    limit > 0 && reservation > limit
}

// Why rates are refused: the first case that fits.
fn rates_refusal(reservation: u64, limit: u64, weight: u64) -> Option<Refusal>
    ensures { result ≡ rates_refusal reservation limit weight }
{
    if is_above(MAX_RATE, reservation) {
        Some(Refusal::BadReservation)
    } else if is_above(MAX_RATE, limit) {
        Some(Refusal::BadLimit)
    } else if is_outside(MAX_RATE, weight) {
        Some(Refusal::BadWeight)
    } else if is_above_limit(reservation, limit) {
        Some(Refusal::ReservationAboveLimit)
    } else {
        None
    }
}
