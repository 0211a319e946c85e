//! The walk through a plan, and what is written on it.
ghost use Rattle.std.specs.Prelude.{◌≡◌, true, ◌∷◌, map, fold};
ghost use Rattle.grammar.specs.declared.event.Event.TheVariants as events;
ghost use Rattle.plan.specs.Model.{model_of, node_of};
ghost use Rattle.plan.specs.Sound.{counts_fit};
ghost use Rattle.showing.specs.Walk.{atom, atoms_in, has_parent, walk};
ghost use Rattle.showing.specs.Shown.{set_events};
ghost use Rattle.show.specs.Page.{page_of, event_written};
ghost use Rattle.show.specs.Steps.{node_written, step_written};

use crate::scribe::Scribe;
use grammar::event::Event;
use label::kind::Label;
use plan::links::ports;
use plan::tables::{Atom, Cell, Plan};

/// Whether a cell lies directly in another.
fn lies_in(cell: &Cell, parent: usize) -> bool
    ensures { result ≡ has_parent parent cell.now.parent }
{
    cell.parent.is_some_and(|row| usize::from(row) == parent)
}

impl Scribe<'_> {
    /// Writes an atom with its ports.
    fn put_atom<L: Label>(&mut self, atom: &Atom<L>)
        ensures { page_of self.new ≡ node_written L.Label.kind (page_of self.old) (node_of atom.now) }
    {
        self.put_event(Event::Label(atom.label));
        self.put_ports::<L>(ports(atom));
    }

    /// Writes that a cell begins, with its set where it has one.
    fn put_enter<L: Label>(&mut self, set: u8)
        ensures { page_of self.new ≡ fold (event_written L.Label.kind) (page_of self.old) (events.Enter ∷ set_events set) }
    {
        self.put_event::<L>(Event::Enter);
        if set != 0 {
            self.put_event::<L>(Event::Set(set));
        }
    }

    /// Writes the atoms that lie directly in a cell.
    fn put_atoms<L: Label>(&mut self, atoms: &[Atom<L>], cell: usize)
        ensures { page_of self.new ≡ fold (step_written L.Label.kind) (page_of self.old) (map atom (atoms_in cell (map node_of atoms.now))) }
    {
        // An `if`, as a `filter` in the `for` was tried, and the proof did not close.
        for atom in atoms {
            if usize::from(atom.cell) == cell {
                self.put_atom(atom);
            }
        }
    }

    /// Writes what is in a cell, at most so many levels down: its atoms, then its cells, each with its contents.
    pub(crate) fn put_cell<L: Label>(&mut self, plan: &Plan<'_, L>, cell: usize, levels: usize)
        requires { counts_fit plan.now ≡ true }
        ensures { page_of self.new ≡ fold (step_written L.Label.kind) (page_of self.old) (walk levels (model_of plan.now) cell) }
    {
        let Some(below) = levels.checked_sub(1) else {
            return;
        };
        let atoms = &*plan.atoms;
        let cells = &*plan.cells;
        self.put_atoms(&atoms[..plan.atom_count], cell);
        for (row, inner) in cells[..plan.cell_count].iter().enumerate() {
            if lies_in(inner, cell) {
                self.put_enter::<L>(inner.set);
                self.put_cell(plan, row, below);
                self.put_event::<L>(Event::Leave);
            }
        }
    }
}
