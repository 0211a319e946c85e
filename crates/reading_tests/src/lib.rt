//! Tests of reading, with expected values worked by hand from docs/RULES.md.
#![tactic(auto)]

#[cfg(test)]
mod cases;
#[cfg(test)]
mod kinds;
#[cfg(test)]
mod long;
pub mod mute;
#[cfg(test)]
mod tokens;
pub mod zeros;
