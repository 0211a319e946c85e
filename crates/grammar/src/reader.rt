//! The reader of a hang.
ghost use Rattle.std.specs.Prelude.{◌+◌, ◌^◌, ◌<◌, ◌≤◌, length};
ghost use Rattle.grammar.specs.Names.{names_of};

use crate::stand::Stand;
use crate::table::Names;

/// What is left of a text, the place of its first byte, and where the reading stands.
#[derive(Drop)]
pub struct Reader<'t> {
    pub rest: &'t [u8],
    pub at: usize,
    pub stand: Stand,
    pub names: Names,
    ghost fits: { at + length rest.now < 2 ^ 64 },
    ghost room: { length (names_of names) + length rest.now ≤ 65535 },
}
