//! Tokens, which borrow the text.

/// The most characters of a word or a line name.
pub const NAME_LIMIT: usize = 8;

/// A token that is always the same bytes.
#[derive(Clone, Copy, PartialEq, Eq, Debug)]
pub enum Mark {
    /// `(`
    Open,
    /// `)`
    Close,
    /// `{`
    OpenBrace,
    /// `}`
    CloseBrace,
    /// `,`
    Comma,
    /// `.`
    Stop,
    /// `:`
    Colon,
    /// `=`
    Equal,
    /// `$`
    Dollar,
    /// `@`
    At,
    /// `:-`
    Turn,
}

/// What a token is, apart from its bytes.
#[derive(Clone, Copy, PartialEq, Eq, Debug)]
pub enum Sort {
    Word,
    LineName,
    Number,
    Mark(Mark),
}

/// A part of the text.
#[derive(Clone, Copy)]
pub enum Token<'t> {
    Word(&'t [u8]),
    LineName(&'t [u8]),
    Number(&'t [u8]),
    Mark(Mark),
}

/// A token with its place, and the text that follows it with its own place.
#[derive(Clone, Copy)]
pub struct Found<'t> {
    pub token: Token<'t>,
    pub place: usize,
    pub rest: &'t [u8],
    pub next: usize,
}
