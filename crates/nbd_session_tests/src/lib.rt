//! Tests of nbd_session.
#![tactic(auto)]

#[cfg(test)]
mod tests;
