//! Tests of whose turn it is: calls by hand, and a run of many.
#![tactic(auto)]

#[cfg(test)]
mod tests;
