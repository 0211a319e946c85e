//! The check that a plan is sound, whatever its tables hold.
ghost use Rattle.std.specs.Prelude.{◌≡◌, ◌+◌, ◌≤◌, min, true, length, Decides, nat_le};
ghost use Rattle.plan.specs.Model.{model_of};
ghost use Rattle.plan.specs.Sound.{Sound, counts_fit};
ghost use Rattle.plan.specs.Tests.{sound_test, tables_test};
ghost use Rattle.plan.specs.Whole.{Whole};

use crate::atoms::atoms_sound;
use crate::cells::cells_sound;
use crate::limits::{ATOM_LIMIT, CELL_LIMIT, FREE_LIMIT, LABEL_LIMIT};
use crate::links::links_sound;
use crate::names::names_sound;
use crate::register::register_sound;
use crate::tables::{Atom, Cell, Census, FreeLink, Plan};
use label::kind::Label;

/// Whether a table takes some rows more: with them its count passes neither its rows nor the limit.
pub fn fits(count: usize, more: usize, rows: usize, limit: usize) -> bool
    ensures { result ≡ nat_le (count + more) (min rows limit) }
{
    let most = rows.min(limit);
    count <= most && more <= most - count
}

/// Whether no count passes its table.
pub fn counts_fit<L: Label>(plan: &Plan<'_, L>) -> bool
    ensures { result ≡ counts_fit plan.now }
{
    fits(plan.atom_count, 0, plan.atoms.len(), ATOM_LIMIT)
        && fits(plan.cell_count, 0, plan.cells.len(), CELL_LIMIT)
        && fits(plan.free_count, 0, plan.free.len(), FREE_LIMIT)
        && fits(plan.label_count, 0, plan.register.len(), LABEL_LIMIT)
}

/// Whether the tables, cut to the rows that count, are those of a sound plan.
fn tables_sound<L: Label>(
    cells: &[Cell],
    atoms: &[Atom<L>],
    free: &[FreeLink],
    register: &[Census<L>],
) -> bool
    requires { length register.now ≤ 1024 }
    ensures { result ≡ tables_test L.Label.kind cells.now atoms.now free.now register.now }
{
    cells_sound(cells)
        && atoms_sound(atoms, cells.len())
        && links_sound(atoms, free)
        && names_sound(free)
        && register_sound(atoms, register)
}

/// Whether a plan is sound. If it is, every link that stands has two ends, and every cell leads up to the root.
pub fn is_sound<L: Label>(plan: &Plan<'_, L>) -> bool
    ensures is { result ≡ sound_test L.Label.kind plan.now }
    ensures decides { Decides result (Sound L.Label.kind plan.now) }
    ensures whole { result ≡ true → Whole (model_of plan.now) }
{
    counts_fit(plan)
        && tables_sound(
            &plan.cells[..plan.cell_count],
            &plan.atoms[..plan.atom_count],
            &plan.free[..plan.free_count],
            &plan.register[..plan.label_count],
        )
}
