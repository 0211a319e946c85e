//! Tests of showing, with tables written by hand.
#![tactic(auto)]

#[cfg(test)]
mod texts;
