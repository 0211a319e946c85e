//! The order in which things are tried. It is an interface with a law, so that what holds for every lawful order holds whichever is used.
#![tactic(auto)]

pub mod shuffled;
pub mod stride;
pub mod trying;
pub mod written;
