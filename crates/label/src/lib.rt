//! Kinds of labels. A label is what an atom is called, and is written as one token.
#![tactic(auto)]

pub mod form;
pub mod kind;
pub mod named;
mod numbers;
pub mod spelled;
pub mod sure;
pub mod word;
pub mod word_or_number;
mod words;
