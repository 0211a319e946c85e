//! The checks of a plan's atoms, one by one.
ghost use Rattle.std.specs.Prelude.{◌≡◌, ◌&&◌, nat_le, nat_lt};
ghost use Rattle.std.specs.List.{list_all};
ghost use Rattle.plan.specs.Tests.{atoms_test};

use crate::tables::Atom;
use label::kind::Label;
use text::limits::PORT_LIMIT;

/// Whether a value is a label of the kind.
pub(crate) fn is_label<L: Label>(label: L) -> bool
    ensures { result ≡ L.Label.kind.mine label }
{
    label.admit().is_some()
}

/// Whether every atom has a label of the kind.
fn labels_known<L: Label>(atoms: &[Atom<L>]) -> bool
    ensures { result ≡ list_all (λ a. L.Label.kind.mine a.label) atoms.now }
{
    atoms.iter().all(|atom| is_label(atom.label))
}

/// Whether every atom lies in one of so many cells.
fn homes_stand<L: Label>(atoms: &[Atom<L>], cells: usize) -> bool
    ensures { result ≡ list_all (λ a. nat_lt a.cell cells) atoms.now }
{
    atoms.iter().all(|atom| usize::from(atom.cell) < cells)
}

/// Whether no atom has too many ports.
fn ports_fit<L: Label>(atoms: &[Atom<L>]) -> bool
    ensures { result ≡ list_all (λ a. nat_le a.arity 8) atoms.now }
{
    atoms.iter().all(|atom| atom.arity <= PORT_LIMIT)
}

/// Whether the atoms, one by one, are as a sound plan with so many cells has them.
pub(crate) fn atoms_sound<L: Label>(atoms: &[Atom<L>], cells: usize) -> bool
    ensures { result ≡ atoms_test L.Label.kind cells atoms.now }
{
    labels_known(atoms) && homes_stand(atoms, cells) && ports_fit(atoms)
}
