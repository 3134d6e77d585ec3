//! The sessions that a client of the threaded server is given.
ghost use Rattle.std.specs.Prelude.{◌≡◌, None};
ghost use Rattle.session_turns.specs.Doors.{Enters};

use eligibility::Eligibility;
use export_store::Image;
use nbd_options::{Attach, Attached};
use server_core::{NotAttached, SessionId};
use server_lock::{Pass, Shared};
use std::marker::Model;
use std::sync::Wait;
use std::sync::ledger::Ledger;

/// Where a client comes in: it attaches the client to the export that it chooses.
#[derive(Drop)]
pub struct Door<'a, L: Ledger, I: Image, E: Eligibility<Alloc = I::Alloc>, W: Wait> {
    rt: &'a W,
    shared: &'a Shared<L, I, E>,
    pass: Pass<L>,
    session: Option<SessionId>,
}

impl<'a, L: Ledger, I: Image, E: Eligibility<Alloc = I::Alloc>, W: Wait> Model
    for Door<'a, L, I, E, W> {
    ghost use Rattle.session_turns.specs.Doors.{Entering};

    ghost Value = { Entering };

    ghost view = { λ d. record { pass = d.pass; session = d.session } };
}

impl<'a, L: Ledger, I: Image, E: Eligibility<Alloc = I::Alloc>, W: Wait> Door<'a, L, I, E, W> {
    /// Nothing was asked yet. The pass makes the turns.
    pub fn new(rt: &'a W, shared: &'a Shared<L, I, E>, pass: Pass<L>) -> Door<'a, L, I, E, W>
        ensures { result ≡ record { pass = pass; session = None } }
    {
        Door {
            rt,
            shared,
            pass,
            session: None,
        }
    }

    /// The session that was given last.
    pub fn session(&self) -> Option<SessionId>
        ensures { result ≡ self.now.session }
    {
        self.session
    }

    /// The pass, to be used further.
    pub fn into_pass(self) -> Pass<L>
        ensures { result ≡ self.entry.pass }
    {
        let Door {
            rt: _,
            shared: _,
            pass,
            session: _,
        } = self;
        pass
    }
}

impl<'a, L: Ledger, I: Image, E: Eligibility<Alloc = I::Alloc>, W: Wait> Attach
    for Door<'a, L, I, E, W> {
    ghost may = { λ _ _. Unit {0} };

    fn attach(&mut self, export: u32) -> Attached
        ensures { Enters export self.old self.new result }
    {
        match self.shared.turn_attach(self.rt, &mut self.pass, export) {
            Ok(session) => {
                self.session = Some(session);
                Attached::Given
            }
            Err(NotAttached::Full) => Attached::Full,
            Err(_) => Attached::Other,
        }
    }
}
