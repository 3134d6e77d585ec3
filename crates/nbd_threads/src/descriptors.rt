//! How many descriptors the process may have.

use libc::types::rlimit;
use libc::{RLIMIT_NOFILE, getrlimit};
use nbd_policy::connections_for;

/// How many connections there is room for by the process's limit of descriptors (RLIMIT_NOFILE, getrlimit(2)). None where the
/// system doesn't tell.
pub fn room_for_connections() -> Option<u64> {
    let mut limit = rlimit {
        rlim_cur: 0,
        rlim_max: 0,
    };
    if getrlimit(RLIMIT_NOFILE, &mut limit) == 0 {
        Some(connections_for(limit.rlim_cur))
    } else {
        None
    }
}
