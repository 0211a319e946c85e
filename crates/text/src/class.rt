//! The class of a byte.
ghost use Rattle.std.specs.Prelude.{◌≡◌};
ghost use Rattle.text.specs.Classes.{class_of, passes, blank};

/// What a byte is to the lexer.
#[derive(Clone, Copy, PartialEq, Eq, Debug)]
pub enum Class {
    /// Separates tokens.
    Blank,
    /// a to z, which begin a word.
    Lower,
    /// A to Z and `_`, which begin a line name.
    Upper,
    /// 0 to 9.
    Digit,
    /// The minus sign of a number.
    Minus,
    /// One of the marks.
    Mark,
    /// No token has this byte.
    Other,
}

/// The class of a byte, told by tests.
#[tactic(auto, unfolding(crate::specs::Classes::class_of))]
pub fn class_of(b: u8) -> Class
    ensures { result ≡ class_of b }
{
    // Small letters by a test of their own, and first, then the other ranges, then single bytes: a text has most bytes of the first
    // kinds, and one match of all was slower for them.
    if matches!(b, b'a'..=b'z') {
        return Class::Lower;
    }
    match b {
        b'A'..=b'Z' => Class::Upper,
        b'0'..=b'9' => Class::Digit,
        _ => match b {
            b'\t' | b'\n' | b'\r' | b' ' => Class::Blank,
            b'_' => Class::Upper,
            b'-' => Class::Minus,
            b'(' | b')' | b'{' | b'}' | b',' | b'.' | b':' | b'=' | b'$' | b'@' => Class::Mark,
            _ => Class::Other,
        },
    }
}

/// Whether a byte separates tokens.
pub fn is_blank(b: u8) -> bool
    ensures { result ≡ blank b }
{
    matches!(class_of(b), Class::Blank)
}

/// What a run of bytes consists of.
#[derive(Clone, Copy, PartialEq, Eq, Debug)]
pub enum Run {
    /// What a word or a line name goes on with.
    Tails,
    /// Digits.
    Digits,
    /// What separates tokens.
    Blanks,
}

/// Whether a run goes on with a byte.
pub fn goes_on(run: Run, b: u8) -> bool
    ensures { result ≡ passes run b }
{
    match run {
        Run::Tails => matches!(class_of(b), Class::Lower | Class::Upper | Class::Digit),
        Run::Digits => matches!(class_of(b), Class::Digit),
        Run::Blanks => is_blank(b),
    }
}
