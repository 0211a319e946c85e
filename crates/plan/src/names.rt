//! The checks of the names of free links.
ghost use Rattle.std.specs.Prelude.{◌≡◌, ◌&&◌, map, ◌==◌};
ghost use Rattle.text.specs.Packed.{pack, spelling};
ghost use Rattle.text.specs.Shapes.{is_name};
ghost use Rattle.std.specs.List.{list_all, list_any};
ghost use Rattle.plan.specs.Sound.{distinct, open_name};
ghost use Rattle.plan.specs.Tests.{names_test};

use crate::tables::FreeLink;
use text::packed::{Name, Packing, is_packed};

/// Whether a name is a packed line name that begins with a letter.
fn is_open(name: Name) -> bool
    ensures { result ≡ open_name name }
{
    is_packed(Packing::LineName, name.packed) && !name.is_underscored()
}

/// Whether every name is one that may stand open.
fn names_open(free: &[FreeLink]) -> bool
    ensures { result ≡ list_all (λ f. open_name f.name) free.now }
{
    free.iter().all(|link| is_open(link.name))
}

/// Whether a name is that of one of the rows.
fn is_among(name: u64, free: &[FreeLink]) -> bool
    ensures { result ≡ list_any (λ f. f.name.packed == name) free.now }
{
    free.iter().any(|link| link.name.packed == name)
}

/// Whether no name stands twice.
#[tactic(auto, unfolding(crate::specs::Sound::distinct))]
fn names_apart(free: &[FreeLink]) -> bool
    ensures { result ≡ distinct (map (λ f. f.name.packed) free.now) }
{
    for (i, link) in free.iter().enumerate() {
        if is_among(link.name.packed, &free[i + 1..]) {
            return false;
        }
    }
    true
}

/// Whether the names are as a sound plan has them.
pub(crate) fn names_sound(free: &[FreeLink]) -> bool
    ensures { result ≡ names_test free.now }
{
    names_open(free) && names_apart(free)
}
