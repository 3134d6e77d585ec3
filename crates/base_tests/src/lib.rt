//! Tests of the small crates that others stand on: nbd_base, refusing, export_queue and index_heap.
#![tactic(auto)]

#[cfg(test)]
mod tests;
