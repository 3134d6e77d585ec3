//! Tests of the public calls of payload, in a crate of their own, so that neither its proofs nor its edits are checked with them again.
#![tactic(auto)]

#[cfg(test)]
mod tests;
