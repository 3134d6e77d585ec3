//! Tests of export_cell.
#![tactic(auto)]

#[cfg(test)]
mod tests;
