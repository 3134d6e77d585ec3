//! Requests in service.
ghost use Rattle.std.specs.Prelude.{◌≡◌};

use std::marker::Model;
use tag_clock::Phase;

/// A request in service, from its dispatch until it is performed.
///
/// Its slot is used again by a later request of the export; its number never is.
#[derive(Clone, Copy, Debug, PartialEq, Eq)]
pub struct Ticket {
    pub(crate) export: u32,
    pub(crate) number: u64,
    pub(crate) slot: usize,
}

impl Model for Ticket {
    ghost use Rattle.server_core.specs.Tickets.{Place};

    ghost Value = { Place };

    ghost view = { λ ticket.
        record { export = ticket.export; number = ticket.number; slot = ticket.slot } };

    ghost inverse = { λ place.
        record { export = place.export; number = place.number; slot = place.slot } };
}

impl Ticket {
    /// Its export's place in the configuration, from 0.
    pub fn export(self) -> u32
        ensures { result ≡ self.export }
    {
        self.export
    }

    /// Its number in its export.
    pub fn number(self) -> u64
        ensures { result ≡ self.number }
    {
        self.number
    }
}

/// A request that was chosen to be served next, and by which rule.
#[derive(Clone, Copy, Debug, PartialEq, Eq)]
pub struct Chosen {
    pub ticket: Ticket,
    pub phase: Phase,
}
