//! Tests of nbd_link and of values of nbd_service: bytes that are read ahead, what holds took out, WRITEs that ended sessions left.
#![tactic(auto)]

#[cfg(test)]
mod tests;
