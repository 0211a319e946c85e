//! Tokens to events: the reader of hangs.
#![tactic(auto)]

pub mod advance;
pub mod event;
pub mod judge;
pub mod limits;
pub mod names;
pub mod pull;
pub mod read;
pub mod reader;
pub mod sheet;
pub mod sign;
pub mod stand;
pub mod table;
