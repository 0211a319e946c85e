//! Plans: the tables that hold them, what they stand for, and when they are sound.
#![tactic(auto)]

mod atoms;
mod cells;
pub mod check;
pub mod limits;
pub mod links;
mod names;
pub mod register;
pub mod remove;
pub mod strike;
pub mod tables;
