//! The passes that no thread has.

use server_lock::Pass;
use std::sync::ledger::Ledger;
use std::sync::{Mutex, Wait};

/// Where passes lie while no thread has them.
#[derive(Drop)]
pub struct PassPool<L: Ledger> {
    passes: Mutex<Vec<Pass<L>>>,
}

impl<L: Ledger> PassPool<L> {
    pub fn new(passes: Vec<Pass<L>>) -> PassPool<L> {
        PassPool {
            passes: Mutex::new(passes),
        }
    }

    /// A pass, or none where all are out.
    pub fn borrow<R: Wait>(&self, rt: &R) -> Option<Pass<L>> {
        self.passes.lock(rt).pop()
    }

    /// There is room, since the pass came out of this list. One that was lost all the same would be missed at the end.
    pub fn give_back<R: Wait>(&self, rt: &R, pass: Pass<L>) {
        let _ = self.passes.lock(rt).push(pass);
    }

    /// All passes, once no thread has one.
    pub fn end(self) -> Vec<Pass<L>> {
        let PassPool { passes } = self;
        passes.into_inner()
    }
}
