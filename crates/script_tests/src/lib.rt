//! Tests of whole scripts and conversations: what nbd_scripts and nbd_session make of the bytes of a client, of its faults, and
//! of the events of a server.
#![tactic(auto)]

#[cfg(test)]
mod tests;
