//! The upkeep of a plan's register.
#![tactic(auto)]

pub mod add;
mod insert;
mod seek;
pub mod take;
