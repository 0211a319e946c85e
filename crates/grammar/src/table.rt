//! The table of the names that stood.
use crate::limits::TEXT_LIMIT;
use crate::stand::Standing;
use arrayvec::ArrayVec;

/// The names that stood, in the order of their first standing. A text of 65,535 bytes has no more names than bytes.
#[derive(Drop)]
pub struct Names {
    pub rows: ArrayVec<Standing, TEXT_LIMIT>,
}
