//! Labels that are words.
ghost use Rattle.std.specs.Prelude.{◌≡◌};
ghost use Rattle.text.specs.Packed.{pack};
ghost use Rattle.label.specs.WordKind.{the_word, word_kind, word_raw};
ghost use Rattle.label.specs.Laws.{word_lawful, word_sound};

use crate::form::Form;
use crate::kind::Label;
use crate::spelled::Spelled;
use crate::sure::SureWord;
use crate::words::{admit_word, read_word, spell_word};
use std::cmp::Ordering;
use text::packed::packed;

/// A word of at most eight bytes as one number, as the crate `text` packs it. A number that packs no word is no label.
#[derive(Clone, Copy, PartialEq, Eq, PartialOrd, Ord, Debug)]
pub struct WordLabel(pub u64);

impl WordLabel {
    /// The label of a word's bytes. Of other bytes it may be no label.
    pub fn new(bytes: &[u8]) -> WordLabel
        ensures { result ≡ the_word (pack bytes.now) }
    {
        WordLabel(packed(bytes))
    }
}

impl Label for WordLabel {
    type Sure = SureWord;

    ghost kind = { word_kind };

    ghost raw = { word_raw };

    ghost lawful = { word_lawful };

    ghost sound = { word_sound };

    fn read(form: Form, bytes: &[u8]) -> Option<WordLabel> {
        match form {
            Form::Word => read_word(bytes).map(WordLabel),
            Form::Number => None,
        }
    }

    fn compare(self, other: WordLabel) -> Ordering {
        self.cmp(&other)
    }

    fn token(self) -> Option<Spelled> {
        spell_word(self.0)
    }

    fn admit(self) -> Option<SureWord> {
        admit_word(self.0)
    }

    fn plain(s: SureWord) -> WordLabel {
        WordLabel(s.packed)
    }
}
