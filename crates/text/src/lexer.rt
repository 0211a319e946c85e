//! The lexer.
ghost use Rattle.std.specs.Prelude.{◌≡◌, ℕ, ◌+◌, ◌^◌, ◌<◌, ◌≤◌, true, false, length, IfOk, ◌==◌, slice_index};
ghost use Rattle.text.specs.declared.class.Class.TheVariants as classes;
ghost use Rattle.text.specs.Classes.{class_of, blank, passes};
ghost use Rattle.std.specs.List.{list_all, prefix_len};
ghost use Rattle.text.specs.Tokens.{single, tokens, front, measured, negative, placed, tok};
ghost use Rattle.text.specs.Answer.{Ahead, GoesOn, TokensProper, answer, begun, shape};

use crate::class::{Class, Run, class_of, goes_on, is_blank};
use crate::token::{Found, Mark, NAME_LIMIT, Sort, Token};
use fault::{Fault, Refusal};

/// How many bytes at the front are of a run.
pub fn run_length(run: Run, text: &[u8]) -> usize
    ensures count { result ≡ prefix_len (passes run) text.now }
    ensures within { result ≤ length text.now }
{
    text.iter().take_while(|b| goes_on(run, **b)).count()
}

/// Whether all bytes are of a run.
pub fn is_run(run: Run, bytes: &[u8]) -> bool
    ensures { result ≡ list_all (passes run) bytes.now }
{
    bytes.iter().all(|b| goes_on(run, *b))
}

/// The mark of one byte, other than the colon.
fn mark_of(b: u8) -> Mark
    ensures { result ≡ single b }
{
    match b {
        b'(' => Mark::Open,
        b')' => Mark::Close,
        b'{' => Mark::OpenBrace,
        b'}' => Mark::CloseBrace,
        b',' => Mark::Comma,
        b'.' => Mark::Stop,
        b'=' => Mark::Equal,
        b'$' => Mark::Dollar,
        _ => Mark::At,
    }
}

/// A word or a line name with `n` bytes after its first.
fn measure(sort: Sort, n: usize) -> Result<(Sort, usize), Refusal>
    ensures { result ≡ measured sort n }
{
    if n < NAME_LIMIT {
        Ok((sort, n))
    } else {
        Err(Refusal::LongName)
    }
}

/// A number with `n` digits after its minus sign.
fn after_minus(n: usize) -> Result<(Sort, usize), Refusal>
    ensures { result ≡ negative n }
{
    if n == 0 {
        Err(Refusal::NoToken)
    } else {
        Ok((Sort::Number, n))
    }
}

/// What a byte other than the colon begins, before the bytes `after` it.
fn front_of(b: u8, after: &[u8]) -> Result<(Sort, usize), Refusal>
    requires { (b == 58) ≡ false }
    ensures is { result ≡ front b after.now }
    ensures within { IfOk result (λ p. p.1 ≤ length after.now) }
{
    match class_of(b) {
        Class::Lower => measure(Sort::Word, run_length(Run::Tails, after)),
        Class::Upper => measure(Sort::LineName, run_length(Run::Tails, after)),
        Class::Digit => Ok((Sort::Number, run_length(Run::Digits, after))),
        Class::Minus => after_minus(run_length(Run::Digits, after)),
        Class::Mark => Ok((Sort::Mark(mark_of(b)), 0)),
        Class::Blank | Class::Other => Err(Refusal::NoToken),
    }
}

/// The same, with a refusal at its place.
fn front_at(b: u8, after: &[u8], place: usize) -> Result<(Sort, usize), Fault>
    requires { (b == 58) ≡ false }
    ensures is { result ≡ placed place (front b after.now) }
    ensures within { IfOk result (λ p. p.1 ≤ length after.now) }
{
    front_of(b, after).map_err(|refusal| refusal.at(place))
}

fn token_of<'t>(sort: Sort, bytes: &'t [u8]) -> Token<'t>
    ensures { shape result ≡ tok sort bytes.now }
{
    match sort {
        Sort::Word => Token::Word(bytes),
        Sort::LineName => Token::LineName(bytes),
        Sort::Number => Token::Number(bytes),
        Sort::Mark(mark) => Token::Mark(mark),
    }
}

/// The token that `text` begins with.
fn begin<'t>(text: &'t [u8], place: usize) -> Result<Found<'t>, Fault>
    requires some { 0 < length text.now }
    requires bare { blank (slice_index text.now 0) ≡ false }
    requires fits { place + length text.now < 2 ^ 64 }
    ensures is { begun result ≡ tokens 0 place text.now }
    ensures ahead { IfOk result (Ahead place text.now) }
{
    match text {
        [b':', b'-', rest @ ..] => Ok(Found {
            token: Token::Mark(Mark::Turn),
            place,
            rest,
            next: place + 2,
        }),
        [b':', rest @ ..] => Ok(Found {
            token: Token::Mark(Mark::Colon),
            place,
            rest,
            next: place + 1,
        }),
        [b, after @ ..] => {
            let (sort, more) = front_at(*b, after, place)?;
            let (bytes, rest) = text.split_at(more + 1);
            Ok(Found {
                token: token_of(sort, bytes),
                place,
                rest,
                next: place + more + 1,
            })
        }
        [] => unreachable(),
    }
}

/// The first token of `text`, whose first byte is at the place `at`; or the text's end.
pub fn next_token<'t>(text: &'t [u8], at: usize) -> Result<Option<Found<'t>>, Fault>
    requires { at + length text.now < 2 ^ 64 }
    ensures is { answer (at + length text.now) result ≡ tokens 0 at text.now }
    ensures ahead { GoesOn at text.now result }
{
    let blanks = run_length(Run::Blanks, text);
    let rest = &text[blanks..];
    if rest.is_empty() {
        return Ok(None);
    }
    Ok(Some(begin(rest, at + blanks)?))
}

/// Each token of a text has the bytes of its sort.
pub fn tokens_stand()
    ensures { TokensProper }
{}
