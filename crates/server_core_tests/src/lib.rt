//! Tests of server_core, in a crate of their own: so they are proved beside it, and its functions once only.
#![tactic(auto)]

#[cfg(test)]
mod tests;
