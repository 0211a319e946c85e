//! Cutting bytes in two at a mark.
ghost use Rattle.std.specs.Prelude.{◌≡◌, ◌<◌, length, ◌==◌};
ghost use Rattle.std.specs.List.{position};
ghost use Rattle.bigvosk.specs.Cuts.{CutAt, before, past};

/// How many bytes are before the first `mark` of `text`, if it has one.
fn first(mark: u8, text: &[u8]) -> Option<usize>
    ensures { result ≡ position (λ b. b == mark) text.now }
{
    text.iter().position(|b| *b == mark)
}

/// What is before the first `mark` of `text`, and what is past it. Without a `mark`, all of the text and nothing.
#[tactic(auto, using(crate::proofs::Cutting::before_at, crate::proofs::Cutting::before_none, crate::proofs::Cutting::past_at, crate::proofs::Cutting::past_none))]
pub fn cut(mark: u8, text: &[u8]) -> (&[u8], &[u8])
    ensures before { result.0.now ≡ before mark text.now }
    ensures past { result.1.now ≡ past mark text.now }
    ensures joined { CutAt mark text.now result.0.now result.1.now }
    ensures shorter { 0 < length text.now → length result.1.now < length text.now }
{
    match first(mark, text) {
        Some(n) => (&text[..n], &text[n + 1..]),
        None => (text, &[]),
    }
}
