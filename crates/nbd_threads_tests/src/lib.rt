//! Tests of nbd_policy and nbd_threads: the rules over values, interactive sessions, the rates in force, and the looks at a socket.
#![tactic(auto)]

#[cfg(test)]
mod tests;
