//! Showing a plan: its text, written into a buffer that the caller lends.
#![tactic(auto)]

mod bytes;
mod events;
mod names;
mod scribe;
pub mod show;
mod tokens;
mod walk;
