//! Tests of nbdq_cli: whole configuration files by `check`, command lines, statuses.
#![tactic(auto)]

#[cfg(test)]
mod tests;
