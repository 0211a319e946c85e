//! What a plan shows: its events, and the text of events.
#![tactic(auto)]

pub mod last;
pub mod theorems;
