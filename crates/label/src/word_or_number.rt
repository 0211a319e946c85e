//! Labels that are words or numbers.
ghost use Rattle.label.specs.WordOrNumberKind.{mixed_kind, mixed_raw};
ghost use Rattle.label.specs.Laws.{mixed_lawful, mixed_sound};

use crate::form::Form;
use crate::kind::Label;
use crate::numbers::{read_number, spell_number};
use crate::spelled::Spelled;
use crate::sure::{SureNumber, SureWordOrNumber};
use crate::words::{admit_word, read_word, spell_word};
use std::cmp::Ordering;

/// A packed word, or a number of 32 bits with a sign. Numbers are lower than words.
#[derive(Clone, Copy, PartialEq, Eq, PartialOrd, Ord, Debug)]
pub enum WordOrNumber {
    Number(i32),
    Word(u64),
}

impl Label for WordOrNumber {
    type Sure = SureWordOrNumber;

    ghost kind = { mixed_kind };

    ghost raw = { mixed_raw };

    ghost lawful = { mixed_lawful };

    ghost sound = { mixed_sound };

    fn read(form: Form, bytes: &[u8]) -> Option<WordOrNumber> {
        match form {
            Form::Word => read_word(bytes).map(WordOrNumber::Word),
            Form::Number => read_number(bytes).map(WordOrNumber::Number),
        }
    }

    fn compare(self, other: WordOrNumber) -> Ordering {
        self.cmp(&other)
    }

    fn token(self) -> Option<Spelled> {
        match self {
            WordOrNumber::Word(n) => spell_word(n),
            WordOrNumber::Number(z) => spell_number(z),
        }
    }

    fn admit(self) -> Option<SureWordOrNumber> {
        match self {
            WordOrNumber::Word(n) => admit_word(n).map(SureWordOrNumber::Word),
            WordOrNumber::Number(value) => Some(SureWordOrNumber::Number(SureNumber { value })),
        }
    }

    fn plain(s: SureWordOrNumber) -> WordOrNumber {
        match s {
            SureWordOrNumber::Word(word) => WordOrNumber::Word(word.packed),
            SureWordOrNumber::Number(number) => WordOrNumber::Number(number.value),
        }
    }
}
