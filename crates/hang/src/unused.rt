//! The numbers that are no link of a plan.
ghost use Rattle.std.specs.Prelude.{◌≡◌, ◌++◌, map, length, filter, nat_eq, slice_index};
ghost use Rattle.plan.specs.Model.{node_of};
ghost use Rattle.plan.specs.Sound.{count, link_limit, port_links, rows};

use arrayvec::ArrayVec;
use label::kind::Label;
use plan::links::{LINKS, count_ends};
use plan::tables::{Atom, FreeLink};

/// The numbers whose counter is zero, ascending.
fn list_zeros(counts: &[u8; LINKS]) -> ArrayVec<u16, LINKS>
    ensures { result.items ≡ filter (λ x. nat_eq (slice_index counts.now x) 0) (rows 0 (length counts.now)) }
{
    let mut zeros = ArrayVec::new();
    for (number, count) in counts.iter().enumerate() {
        if *count == 0 {
            // Proved to fit, so no `try_from`, which could fail.
            zeros.push(number as u16);
        }
    }
    zeros
}

/// The numbers that stand neither at a port nor at a free link, ascending.
pub(crate) fn list_unused<L: Label>(atoms: &[Atom<L>], free: &[FreeLink]) -> ArrayVec<u16, LINKS>
    ensures { result.items ≡ filter (λ x. nat_eq (count x (port_links (map node_of atoms.now) ++ map (λ f. f.link) free.now)) 0) (rows 0 link_limit) }
{
    list_zeros(&count_ends(atoms, free))
}
