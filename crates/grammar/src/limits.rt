//! The limits of a hang.

/// The most bytes of a text.
pub const TEXT_LIMIT: usize = 65535;

/// The depths that there are: the most cells one inside another, and the outermost level.
pub const DEPTHS: usize = 17;

/// The most connectors of a hang.
pub const CONNECTOR_LIMIT: usize = 64;
