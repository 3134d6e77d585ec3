//! Tests of the sessions of one export and of their outboxes.
#![tactic(auto)]

#[cfg(test)]
mod tests;
