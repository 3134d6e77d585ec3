//! The files of sockets.

use super::*;
use std::fs;

/// Whether there is a file that its owner alone may use.
fn is_private<R: Files>(rt: &R, path: &str) -> bool {
    match fs::metadata(rt, path) {
        Ok(found) => found.permissions().mode() & 0o777 == 0o600,
        Err(_) => false,
    }
}

/// Whether the file of a control socket is its owner's, stays where a second socket is to have it, and is removed.
fn is_made_and_removed<R: Net + Files>(rt: &R, alloc: Global, path: &str) -> bool {
    let _ = remove_file(rt, path);
    let Ok(text) = format!(in alloc; "{path}") else {
        return false;
    };
    let named = Some(text);
    let made = bind_control(rt, &named);
    let well = made.is_ok() && is_private(rt, path);
    let again = bind_control(rt, &named).is_ok();
    let stays = is_private(rt, path);
    remove_socket(rt, &named);
    well && !again && stays && !is_private(rt, path)
}

#[test]
fn the_file_of_a_control_socket(rt: HostRuntime) {
    assert!(rt; is_made_and_removed(&rt, rt.alloc(), "nbdq.private"));
}

/// Whether no socket is made at an empty path.
fn is_refused<R: Net + Files>(rt: &R, alloc: Global) -> bool {
    bind_unix(rt, &Some(String::new(alloc))).is_err()
}

#[test]
fn an_empty_path(rt: HostRuntime) {
    assert!(rt; is_refused(&rt, rt.alloc()));
}
