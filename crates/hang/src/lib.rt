//! Hanging a text on a plan.
#![tactic(auto)]

mod atoms;
mod cells;
mod connect;
mod free;
mod hand;
pub mod hang;
mod labels;
mod linked;
mod links;
mod names;
mod next;
mod place;
mod unused;
mod whole;
