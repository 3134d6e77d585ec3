//! Who asked for which request of an export.

ghost use Rattle.std.specs.Prelude.{◌≡◌, ◌-◌, nat_lt};

use nbd_base::NoMemory;
use std::alloc::Global;
use std::sync::atomic::{AtomicU64, Ordering};

/// Which of an export's sessions asked for which of its latest requests.
#[derive(Drop)]
pub struct Askers {
    // The number of the session that asked for a request, found by the request's number.
    sessions: Vec<AtomicU64>,
    // The number of the request that was noted last.
    latest: AtomicU64,
}

impl Askers {
    /// Of an export of which so many requests may wait or be in service.
    pub fn new(alloc: Global, requests: usize) -> Result<Askers, NoMemory> {
        let mut sessions = Vec::new(alloc);
        for _ in 0..requests {
            sessions.push(AtomicU64::new(0))?;
        }
        Ok(Askers {
            sessions,
            latest: AtomicU64::new(0),
        })
    }

    /// A session asked for a request. Requests are noted in the order of their numbers.
    pub fn note(&self, session: u64, request: u64) {
        if let Some(asker) = self.place_of(request) {
            // First, so that whoever finds a later request's asker finds that this is later.
            self.latest.store(request, Ordering::SeqCst);
            asker.store(session, Ordering::SeqCst);
        }
    }

    /// The session that asked for a request. None where that isn't known any more: a request that was chosen may be in service while
    /// any number of others come and go.
    pub fn of(&self, request: u64) -> Option<u64> {
        let asker = self.place_of(request)?.load(Ordering::SeqCst);
        let latest = self.latest.load(Ordering::SeqCst);
        if is_known(request, latest, self.sessions.len() as u64) {
            Some(asker)
        } else {
            None
        }
    }

    fn place_of(&self, request: u64) -> Option<&AtomicU64> {
        let at = request.checked_rem(self.sessions.len() as u64)?;
        self.sessions.get(at as usize)
    }
}

/// Whether it is still known who asked for a request, where so many are, the latest of them that was noted last.
fn is_known(request: u64, latest: u64, known: u64) -> bool
    ensures { result ≡ nat_lt (latest - request) known }
{
    latest.saturating_sub(request) < known
}
