//! The kinds of labels by their names.

/// The kinds of labels that a program can choose.
#[derive(Clone, Copy, PartialEq, Eq, Debug)]
pub enum KindName {
    /// Words only.
    Words,
    /// Words and numbers.
    Numbers,
}
