//! Writing bytes.
ghost use Rattle.std.specs.Prelude.{◌≡◌, [], ◌∷◌};
ghost use Rattle.show.specs.Page.{page_of, wrote};

use crate::scribe::Scribe;

impl Scribe<'_> {
    /// Writes a byte.
    #[tactic(auto, using(std::proofs::lemmas::List::set_past), unfolding(crate::specs::Page::inked))]
    fn put(&mut self, byte: u8)
        ensures { page_of self.new ≡ wrote (byte ∷ []) (page_of self.old) }
    {
        if self.len < self.out.len() {
            self.out[self.len] = byte;
        }
        self.len = self.len.saturating_add(1);
    }

    /// Writes bytes.
    #[tactic(auto, using(std::proofs::lemmas::List::Sums::fold_more))]
    pub(crate) fn put_all(&mut self, bytes: &[u8])
        ensures { page_of self.new ≡ wrote bytes.now (page_of self.old) }
    {
        for byte in bytes {
            self.put(*byte);
        }
    }
}
