//! Tests of moments, of intervals by rates, and of the clocks that give tags.
#![tactic(auto)]

#[cfg(test)]
mod tests;
