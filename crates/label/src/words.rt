//! Packed words as labels.
ghost use Rattle.std.specs.Prelude.{◌≡◌};
ghost use Rattle.std.specs.Option.{option_map};
ghost use Rattle.label.specs.Kind.{admitted};
ghost use Rattle.label.specs.Tokens.{read_word, word_label, word_token};
ghost use Rattle.label.specs.Written.{told};

use crate::form::Form;
use crate::spelled::Spelled;
use crate::sure::SureWord;
use text::packed::{Packing, is_packed, is_spelling, packed, spelled};

/// The packed word that bytes are, if they are a word.
pub(crate) fn read_word(bytes: &[u8]) -> Option<u64>
    ensures { result ≡ read_word bytes.now }
{
    is_spelling(Packing::Word, bytes).then(|| packed(bytes))
}

/// Whether a number is a packed word.
fn is_word_label(number: u64) -> bool
    ensures { result ≡ word_label number }
{
    is_packed(Packing::Word, number)
}

/// The token of a packed word. Another number has none.
#[tactic(auto, using(text::proofs::Packing::spelling_front, text::proofs::Packing::spelling_short))]
pub(crate) fn spell_word(number: u64) -> Option<Spelled>
    ensures { option_map told result ≡ word_token number }
{
    if is_word_label(number) {
        let (bytes, count) = spelled(number);
        Spelled::new(Form::Word, &bytes[..count])
    } else {
        None
    }
}

/// The same number, known to be a packed word, if it is one.
pub(crate) fn admit_word(number: u64) -> Option<SureWord>
    ensures { option_map (λ s. s.packed) result ≡ admitted word_label number }
{
    // No `then`: its closure would need a clause of its own for the fact that the type asks for.
    if is_word_label(number) {
        Some(SureWord { packed: number })
    } else {
        None
    }
}
