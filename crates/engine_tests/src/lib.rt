//! Tests of the engine's calls.
#![tactic(auto)]

#[cfg(test)]
mod lists;
