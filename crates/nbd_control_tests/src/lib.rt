//! Tests of nbd_control: lines and the commands that they spell, the texts of answers, waits and holds.
#![tactic(auto)]

#[cfg(test)]
mod tests;
