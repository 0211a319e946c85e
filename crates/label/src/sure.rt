//! Values that are labels for certain.
ghost use Rattle.std.specs.Prelude.{◌≡◌, true};
ghost use Rattle.label.specs.Tokens.{in_range, word_label};

/// A packed word.
#[derive(Clone, Copy, Debug)]
pub struct SureWord {
    pub(crate) packed: u64,
    ghost word: { word_label packed ≡ true },
}

/// A number of 32 bits with a sign.
#[derive(Clone, Copy, Debug)]
pub struct SureNumber {
    pub(crate) value: i32,
    ghost fits: { in_range value ≡ true },
}

/// A packed word, or a number.
#[derive(Clone, Copy, Debug)]
pub enum SureWordOrNumber {
    Word(SureWord),
    Number(SureNumber),
}
