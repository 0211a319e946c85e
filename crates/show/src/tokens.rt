//! Writing tokens.
ghost use Rattle.std.specs.Prelude.{◌≡◌, decimal};
ghost use Rattle.text.specs.Packed.{spelling};
ghost use Rattle.showing.specs.Text.{token_bytes};
ghost use Rattle.showing.specs.Shown.{number_name};
ghost use Rattle.show.specs.Page.{page_of, wrote};

use crate::scribe::Scribe;
use arrayvec::ArrayVec;
use itoa::Buffer;
use label::kind::Label;
use text::packed::{Name, spelled};
use text::token::NAME_LIMIT;

impl Scribe<'_> {
    /// Writes a line name.
    #[tactic(auto, using(text::proofs::Packing::spelling_front, text::proofs::Packing::spelling_short))]
    pub(crate) fn put_name(&mut self, name: Name)
        ensures { page_of self.new ≡ wrote (spelling name.packed) (page_of self.old) }
    {
        // The bytes where they are: a list of them would be made and cut for each port.
        let (bytes, count) = spelled(name.packed);
        self.put_all(&bytes[..count]);
    }

    /// Writes a set in decimal.
    pub(crate) fn put_set(&mut self, set: u8)
        ensures { page_of self.new ≡ wrote (decimal set) (page_of self.old) }
    {
        let mut digits = Buffer::new();
        self.put_all(digits.format(set).as_bytes());
    }

    /// Writes a label's token; what is no label has none.
    pub(crate) fn put_label<L: Label>(&mut self, label: L)
        ensures { page_of self.new ≡ wrote (token_bytes (L.Label.kind.token label)) (page_of self.old) }
    {
        if let Some(token) = label.token() {
            self.put_all(&token.bytes);
        }
    }
}

/// The name `_0`, `_1` and so on of a link that has no other.
pub(crate) fn number_name(number: u16) -> Name
    ensures { result ≡ number_name number }
{
    let mut digits = Buffer::new();
    let mut bytes = ArrayVec::<u8, NAME_LIMIT>::new();
    bytes.push(b'_');
    // The digits of a `u16` fit.
    let Ok(()) = bytes.try_extend_from_slice(digits.format(number).as_bytes()) else {
        unreachable!()
    };
    Name::new(&bytes)
}
