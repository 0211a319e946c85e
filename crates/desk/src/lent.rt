//! A plan whose tables are lent one by one.
ghost use Rattle.desk.specs.Held.{tabled};
ghost use Rattle.desk.specs.Lent.{Lent};

use crate::desk::Rows;
use label::kind::Label;
use plan::tables::{Atom, Cell, Census, FreeLink, Plan};

/// Lends these tables, as a plan, to a call, and keeps how many rows of each count after it.
// Each table is a parameter: it is known after the call only where it was passed as a slice, and not in a struct.
pub(crate) fn lend<L: Label, R, F: FnMut(&mut Plan<'_, L>) -> R>(
    atoms: &mut [Atom<L>],
    cells: &mut [Cell],
    free: &mut [FreeLink],
    register: &mut [Census<L>],
    counts: &mut Rows,
    call: &mut F,
) -> R
    requires { F.IsAlwaysCallable call.old }
    ensures { Lent F.FnMut call.old (tabled atoms.old cells.old free.old register.old counts.old) result (tabled atoms.new cells.new free.new register.new counts.new) call.new }
{
    let mut plan = Plan {
        atoms,
        atom_count: counts.atoms,
        cells,
        cell_count: counts.cells,
        free,
        free_count: counts.free,
        register,
        label_count: counts.labels,
    };
    let answer = call(&mut plan);
    *counts = Rows {
        atoms: plan.atom_count,
        cells: plan.cell_count,
        free: plan.free_count,
        labels: plan.label_count,
    };
    answer
}
