//! Bytes to tokens, and names of at most eight characters packed into one number.
#![tactic(auto)]

pub mod class;
pub mod lexer;
pub mod limits;
pub mod number;
pub mod packed;
pub mod token;
