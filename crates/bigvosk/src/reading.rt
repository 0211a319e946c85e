//! Reading a text by the label kind that a script has chosen.
ghost use Rattle.std.specs.Prelude.{◌≡◌};
ghost use Rattle.bigvosk.specs.Answers.{read_as};

use fault::Fault;
use grammar::read::read;
use grammar::sheet::Sheet;
use label::named::KindName;
use label::word::WordLabel;
use label::word_or_number::WordOrNumber;

// A `match` on the name, and no closure: the kinds of labels are two types.
/// Reads a hang and changes nothing: what it holds, or its fault.
#[tactic(auto, unfolding(crate::specs::Answers::read_as))]
pub fn read_as(kind: KindName, text: &[u8]) -> Result<Sheet, Fault>
    ensures { result ≡ read_as kind text.now }
{
    match kind {
        KindName::Words => read::<WordLabel>(text),
        KindName::Numbers => read::<WordOrNumber>(text),
    }
}
