//! The limits that a text and a plan share.

/// The most ports of an atom.
pub const PORT_LIMIT: u8 = 8;

/// The most cells one inside another.
pub const DEPTH_LIMIT: usize = 16;

/// The highest set.
pub const SET_LIMIT: u8 = 15;
