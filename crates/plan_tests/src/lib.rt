//! Tests of soundness and strike, with tables written by hand.
#![tactic(auto)]

#[cfg(test)]
mod tables;
