//! The limits of a plan.

/// The most atoms.
pub const ATOM_LIMIT: usize = 1024;

/// The most cells, the root among them.
pub const CELL_LIMIT: usize = 128;

/// The most free links.
pub const FREE_LIMIT: usize = 64;

/// The most labels in the register.
pub const LABEL_LIMIT: usize = 1024;

/// Every link is a number below this one.
pub const LINK_LIMIT: u16 = 8256;
