//! Desks: the tables of a plan, which own their memory and are lent for each call.
ghost use Rattle.std.specs.Prelude.{◌≡◌, length, IfOk};
ghost use Rattle.showing.specs.Shown.{shown};
ghost use Rattle.desk.specs.Calls.{after_hang, hang_told, show_told, shown_over};
ghost use Rattle.desk.specs.Lent.{Lent};
ghost use Rattle.desk.specs.Held.{Ready, after_strike, held, nothing, on_desk, strike_told};

use crate::lent::lend;
use engine::{hang, show, strike};
use fault::Fault;
use label::kind::Label;
use plan::tables::{Atom, Cell, Census, FreeLink, Plan};
use std::alloc::{AllocError, Global};

/// A number of rows for each table of a plan.
#[derive(Clone, Copy, Default)]
pub struct Rows {
    pub atoms: usize,
    pub cells: usize,
    pub free: usize,
    pub labels: usize,
}

/// The tables of a plan, and how many rows of each count.
// A plan's tables are lent with all their rows, so the counts stand beside them.
#[derive(Drop)]
pub struct Desk<L> {
    pub atoms: Vec<Atom<L>>,
    pub cells: Vec<Cell>,
    pub free: Vec<FreeLink>,
    pub register: Vec<Census<L>>,
    pub counts: Rows,
}

impl<L: Label> Desk<L> {
    /// Lends the tables, as a plan, to a call.
    fn lend<R, F: FnMut(&mut Plan<'_, L>) -> R>(&mut self, call: &mut F) -> R
        requires { F.IsAlwaysCallable call.old }
        ensures { Lent F.FnMut call.old (on_desk self.old) result (on_desk self.new) call.new }
    {
        lend(
            self.atoms.as_mut_slice(),
            self.cells.as_mut_slice(),
            self.free.as_mut_slice(),
            self.register.as_mut_slice(),
            &mut self.counts,
            call,
        )
    }

    /// Strikes the plan.
    pub fn strike(&mut self) -> Result<(), Fault>
        ensures answer { result ≡ strike_told (held (on_desk self.old)) }
        ensures after { held (on_desk self.new) ≡ after_strike (held (on_desk self.old)) }
        ensures ready { Ready L.Label.kind (on_desk self.new) }
    {
        self.lend(&mut strike)
    }

    /// Hangs a text on the plan.
    pub fn hang(&mut self, text: &[u8]) -> Result<(), Fault>
        requires ready { Ready L.Label.kind (on_desk self.old) }
        ensures answer { result ≡ hang_told L.Label.kind (held (on_desk self.old)) text.now }
        ensures after { held (on_desk self.new) ≡ after_hang L.Label.kind text.now (held (on_desk self.old)) }
        ensures ready { Ready L.Label.kind (on_desk self.new) }
    {
        self.lend(&mut |plan| hang(plan, text))
    }

    /// Shows the plan: writes its text to the front of `out`, and gives how many bytes it has.
    pub fn show(&mut self, out: &mut [u8]) -> Result<usize, Fault>
        requires ready { Ready L.Label.kind (on_desk self.old) }
        ensures answer { result ≡ show_told L.Label.kind (held (on_desk self.old)) (length out.old) }
        ensures text { out.new ≡ shown_over result (shown L.Label.kind (held (on_desk self.old)).model) out.old }
        ensures same { on_desk self.new ≡ on_desk self.old }
    {
        self.lend(&mut |plan| show(plan, out))
    }

    /// How many rows each table has.
    pub fn rows(&self) -> Rows
        ensures { result ≡ (held (on_desk self.now)).rows }
    {
        Rows {
            atoms: self.atoms.len(),
            cells: self.cells.len(),
            free: self.free.len(),
            labels: self.register.len(),
        }
    }
}

/// A desk with tables of so many rows, none of which counts. They are filled with `filler`.
pub fn blank<L: Label + Clone>(heap: Global, filler: L, rows: Rows) -> Result<Desk<L>, AllocError>
    ensures { IfOk result (λ d. held (on_desk d) ≡ record { rows = rows; model = nothing }) }
{
    let atom = Atom {
        label: filler,
        cell: 0,
        arity: 0,
        links: [0; 8],
    };
    let cell = Cell {
        parent: None,
        set: 0,
    };
    let end = FreeLink::default();
    let census = Census {
        label: filler,
        atoms: 0,
    };
    Ok(Desk {
        atoms: vec![in heap; atom; rows.atoms]?,
        cells: vec![in heap; cell; rows.cells]?,
        free: vec![in heap; end; rows.free]?,
        register: vec![in heap; census; rows.labels]?,
        counts: Rows::default(),
    })
}
