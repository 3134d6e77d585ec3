//! The spin ladder: how a thread looks for what it waits for before it sleeps, and where it lets others run.

use nbd_policy::{
    LOCK_LOOKS, LOCK_LOOKS_IN_A_ROW, SOCKET_LOOKS, looks_in_a_row, yields_behind_look,
};
use std::hint::spin_loop;
use std::thread::yield_now;

/// How often a thread looks for what it waits for before it sleeps.
#[derive(Clone, Copy, Debug, PartialEq, Eq, Drop)]
pub struct SpinLadder {
    /// How many looks there are.
    pub looks: usize,
    /// Behind how many looks in a row other threads run. 0: they never do.
    pub in_a_row: usize,
}

impl SpinLadder {
    /// The looks of a session's thread for the lock.
    pub const LOCK: SpinLadder = SpinLadder {
        looks: LOCK_LOOKS,
        in_a_row: LOCK_LOOKS_IN_A_ROW,
    };

    /// The looks at a socket, where so many threads look at theirs.
    pub fn at_socket(looking: usize) -> SpinLadder {
        SpinLadder {
            looks: SOCKET_LOOKS,
            in_a_row: looks_in_a_row(looking),
        }
    }

    /// What comes behind the look of this number, which found nothing. Tells whether others ran.
    pub fn rest_behind(self, look: usize) -> bool {
        spin_loop();
        let yields = yields_behind_look(look, self.in_a_row);
        if yields {
            let_others_run();
        }
        yields
    }
}

/// Other threads run, where there are any.
pub fn let_others_run() {
    yield_now();
}
