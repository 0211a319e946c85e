//! The class of a token that can be a label.

/// The class of a token that can be a label. A further class would be one more case.
#[derive(Clone, Copy, PartialEq, Eq, Debug)]
pub enum Form {
    /// A small letter, and then letters, digits and `_`: at most eight bytes.
    Word,
    /// Digits, perhaps after a minus sign.
    Number,
}
