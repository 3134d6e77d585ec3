//! Tests of lone_export.
#![tactic(auto)]

#[cfg(test)]
mod tests;
