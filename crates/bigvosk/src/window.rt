//! Which part of a text is shown for a place in it.
ghost use Rattle.std.specs.Prelude.{◌≡◌, ◌+◌, ◌≤◌, min, length};
ghost use Rattle.bigvosk.specs.Windows.{CaretUnder, part_of, shown_byte, window_of};

/// How many bytes at most are shown before a place.
const BEFORE: usize = 30;

/// How many bytes are shown at most.
const WIDTH: usize = 60;

/// A part of a text: the bytes at `from` up to `to`, and how many of them are before the place.
#[derive(Clone, Copy, PartialEq, Eq, Debug)]
pub struct Window {
    pub from: usize,
    pub to: usize,
    pub caret: usize,
}

/// The part of a text of `len` bytes that is shown for a place. A place past the text's end counts as the end.
pub fn window_for(place: usize, len: usize) -> Window
    ensures is { result ≡ window_of place len }
    ensures holds { (result.from ≤ min place len) × (min place len ≤ result.to) }
    ensures within { (result.to ≤ len) × (result.to ≤ result.from + 60) }
    ensures under { result.from + result.caret ≡ min place len }
{
    let place = place.min(len);
    let from = place.saturating_sub(BEFORE);
    Window {
        from,
        to: from.saturating_add(WIDTH).min(len),
        caret: place - from,
    }
}

/// The part of a text that is shown for a place, and how many of its bytes are before the place.
#[tactic(auto, using(crate::proofs::Pointing::caret_under))]
pub fn part_for(text: &[u8], place: usize) -> (&[u8], usize)
    ensures part { result.0.now ≡ part_of (window_of place (length text.now)) text.now }
    ensures caret { result.1 ≡ (window_of place (length text.now)).caret }
    ensures under { CaretUnder place text.now result.0.now result.1 }
{
    let Window { from, to, caret } = window_for(place, text.len());
    (&text[from..to], caret)
}

/// The byte that is written for a byte of a text: itself where it can be printed, else `?`.
pub fn shown(b: u8) -> u8
    ensures { result ≡ shown_byte b }
{
    match b {
        32..=126 => b,
        _ => b'?',
    }
}
