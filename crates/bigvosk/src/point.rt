//! Two lines that point at a place in a text.
ghost use Rattle.std.specs.Prelude.{◌≡◌, ◌++◌, map, replicate, OnOk};
ghost use Rattle.bigvosk.specs.Windows.{pointing, shown_byte};

use crate::window::{part_for, shown};
use std::alloc::AllocError;
use std::io::{self, Write};
use std::iter;

/// Adds each byte of `part` as it is shown.
fn add_shown(out: &mut Vec<u8>, part: &[u8]) -> Result<(), AllocError>
    ensures { OnOk result (out.new.items ≡ out.old.items ++ map shown_byte part.now) }
{
    out.extend(part.iter().map(|b| shown(*b)))
}

/// Adds `n` spaces.
fn add_spaces(out: &mut Vec<u8>, n: usize) -> Result<(), AllocError>
    ensures { OnOk result (out.new.items ≡ out.old.items ++ replicate n 32) }
{
    out.extend(iter::repeat_n(b' ', n))
}

/// Writes the part of the text that is shown for a place, and a line with a caret under the place.
#[tactic(auto, unfolding(crate::specs::Windows::pointing))]
pub fn write_pointing(out: &mut Vec<u8>, text: &[u8], place: usize) -> io::Result<()>
    ensures { OnOk result (out.new.items ≡ out.old.items ++ pointing place text.now) }
{
    let (part, caret) = part_for(text, place);
    write!(out, "  ")?;
    add_shown(out, part)?;
    write!(out, "\n  ")?;
    add_spaces(out, caret)?;
    writeln!(out, "^")
}
