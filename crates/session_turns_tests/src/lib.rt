//! Tests of session_turns.
#![tactic(auto)]

#[cfg(test)]
mod tests;
