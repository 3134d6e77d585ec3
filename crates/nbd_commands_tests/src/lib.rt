//! Tests of the configuration, of the verdict on requests, and of what they do to an image.
#![tactic(auto)]

#[cfg(test)]
mod tests;
