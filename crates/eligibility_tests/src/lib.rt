//! Tests of both forms of eligibility: walks over operations, and what is due next.
#![tactic(auto)]

#[cfg(test)]
mod tests;
