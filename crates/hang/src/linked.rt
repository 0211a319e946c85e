//! The links of the names of a text.
ghost use Rattle.std.specs.Prelude.{◌≡◌, length};
ghost use Rattle.grammar.specs.Names.{names_of};

use arrayvec::ArrayVec;
use grammar::limits::TEXT_LIMIT;
use grammar::table::Names;

// The links stand beside the names, which are the reader's and only lent.
/// The names of a text, and the link of each.
#[derive(Drop)]
pub struct Linked<'n> {
    pub names: &'n Names,
    pub links: ArrayVec<u16, TEXT_LIMIT>,
    ghost same: { length links.items ≡ length (names_of names.now) },
}
