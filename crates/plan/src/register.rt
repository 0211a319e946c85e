//! The checks of a plan's register.
ghost use Rattle.std.specs.Prelude.{◌≡◌, ◌≤◌, true, ◌&&◌, map, length, ◌==◌, nat_lt, zip, position, is_some, IfSome};
ghost use Rattle.std.specs.List.{list_all};
ghost use Rattle.plan.specs.Model.{node_of};
ghost use Rattle.plan.specs.Places.{Filed, labelled};
ghost use Rattle.plan.specs.Sound.{alike, ascending, registered};
ghost use Rattle.plan.specs.Tests.{register_test};

use crate::atoms::is_label;
use crate::limits::LABEL_LIMIT;
use crate::tables::{Atom, Census};
use label::kind::Label;

/// Rows that can be searched: each has a label of the kind, lower than the next.
#[derive(Drop)]
pub struct Register<'r, L: Label> {
    pub rows: &'r [Census<L>],
    ghost filed: { Filed L.Label.kind rows.now },
}

impl<'r, L: Label> Register<'r, L> {
    /// The rows, if they can be searched.
    pub fn of(rows: &'r [Census<L>]) -> Option<Register<'r, L>>
        ensures is { is_some result ≡ (ascending L.Label.kind rows.now && list_all (λ c. L.Label.kind.mine c.label) rows.now) }
        ensures same { IfSome result (λ r. r.rows.now ≡ rows.now) }
    {
        // No `then`: its closure would need a clause of its own for the fact that the type asks for.
        if ascends(rows) && rows_known(rows) {
            Some(Register { rows })
        } else {
            None
        }
    }

    // A plan's tables are the caller's memory, and what stands there may be no label: so what is asked of one is a clause, and no type.
    /// The row of a label, if there is one.
    pub fn position(&self, label: L) -> Option<usize>
        requires { L.Label.kind.mine label ≡ true }
        ensures { result ≡ position (λ c. alike L.Label.kind label c.label) self.now.rows.now }
    {
        self.rows
            .binary_search_by(|row| row.label.compare(label))
            .ok()
    }

    /// Whether a label has a row.
    #[tactic(auto, using(crate::proofs::Placing::registered_position))]
    pub fn has(&self, label: L) -> bool
        requires { L.Label.kind.mine label ≡ true }
        ensures { result ≡ registered L.Label.kind label self.now.rows.now }
    {
        self.position(label).is_some()
    }
}

/// Whether each label is lower than the next.
fn ascends<L: Label>(rows: &[Census<L>]) -> bool
    ensures { result ≡ ascending L.Label.kind rows.now }
{
    rows.is_sorted_by(|row, next| row.label.compare(next.label).is_lt())
}

// Beside `labels_known` of atoms: one test of both would need a trait of what has a label.
/// Whether every row has a label of the kind.
fn rows_known<L: Label>(rows: &[Census<L>]) -> bool
    ensures { result ≡ list_all (λ c. L.Label.kind.mine c.label) rows.now }
{
    rows.iter().all(|row| is_label(row.label))
}

/// Whether each row says its count, and none is zero.
fn rows_match<L: Label>(rows: &[Census<L>], counts: &[usize]) -> bool
    ensures { result ≡ list_all (λ p. nat_lt 0 p.0.atoms && p.0.atoms == p.1) (zip rows.now counts.now) }
{
    rows.iter().zip(counts).all(|(row, count)| row.atoms > 0 && usize::from(row.atoms) == *count)
}

/// Whether the register is as a sound plan with these atoms has it: its rows can be searched, and say how many atoms have each label.
pub(crate) fn register_sound<L: Label>(atoms: &[Atom<L>], rows: &[Census<L>]) -> bool
    requires mine { labelled L.Label.kind atoms.now ≡ true }
    requires room { length rows.now ≤ 1024 }
    ensures { result ≡ register_test L.Label.kind (map node_of atoms.now) rows.now }
{
    let Some(register) = Register::of(rows) else {
        return false;
    };
    // One place for each row, of which there may be fewer.
    let mut counts = [0usize; LABEL_LIMIT];
    for atom in atoms {
        let Some(row) = register.position(atom.label) else {
            return false;
        };
        counts[row] += 1;
    }
    rows_match(rows, &counts)
}
