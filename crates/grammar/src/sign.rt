//! Tokens, as far as the grammar of hangs tells them apart.
ghost use Rattle.std.specs.Prelude.{◌≡◌};
ghost use Rattle.text.specs.Answer.{shape};
ghost use Rattle.grammar.specs.Seen.{seen, sees};

use text::packed::Name;
use text::token::{Mark, Token};

/// A token to the grammar.
#[derive(Clone, Copy)]
pub enum Sign<'t> {
    Word(&'t [u8]),
    Number(&'t [u8]),
    Name(Name),
    Comma,
    Open,
    Close,
    OpenBrace,
    CloseBrace,
    Equal,
    At,
    /// A token that no hang has.
    Other,
}

/// What a token is to the grammar.
impl<'t> From<Token<'t>> for Sign<'t> {
    ghost from_gives = { λ token sign. seen sign ≡ sees (shape token) };

    fn from(token: Token<'t>) -> Sign<'t> {
        match token {
            Token::Word(bytes) => Sign::Word(bytes),
            Token::LineName(bytes) => Sign::Name(Name::new(bytes)),
            Token::Number(bytes) => Sign::Number(bytes),
            Token::Mark(Mark::Comma) => Sign::Comma,
            Token::Mark(Mark::Open) => Sign::Open,
            Token::Mark(Mark::Close) => Sign::Close,
            Token::Mark(Mark::OpenBrace) => Sign::OpenBrace,
            Token::Mark(Mark::CloseBrace) => Sign::CloseBrace,
            Token::Mark(Mark::Equal) => Sign::Equal,
            Token::Mark(Mark::At) => Sign::At,
            Token::Mark(Mark::Stop | Mark::Colon | Mark::Dollar | Mark::Turn) => Sign::Other,
        }
    }
}
