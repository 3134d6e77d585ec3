//! Tests of the haggling of options.
#![tactic(auto)]

#[cfg(test)]
mod tests;
