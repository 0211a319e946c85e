//! The plan that a program works on, in tables of its own.
#![tactic(auto)]

pub mod desk;
pub mod either;
mod lent;
