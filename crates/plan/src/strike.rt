//! Striking a plan.
ghost use Rattle.std.specs.Prelude.{◌≡◌, true, is_ok, MatchResult};
ghost use Rattle.plan.specs.Model.{SameTables, model_of, struck, tables_of, strike_answer};
ghost use Rattle.plan.specs.Sound.{Sound};

use crate::tables::{Cell, Plan};
use fault::{Fault, Refusal};
use label::kind::Label;

/// Empties any plan, sound or not: one cell, the root, and nothing else. What is left is sound.
pub fn strike<L: Label>(plan: &mut Plan<'_, L>) -> Result<(), Fault>
    ensures answer { result ≡ strike_answer plan.old }
    ensures after { MatchResult result (λ _. model_of plan.new ≡ struck) (λ _. tables_of plan.new ≡ tables_of plan.old) }
    ensures tables { SameTables plan.old plan.new }
    ensures sound { is_ok result ≡ true → Sound L.Label.kind plan.new }
{
    if plan.cells.is_empty() {
        return Err(Refusal::UnsoundPlan.into());
    }
    plan.cells[0] = Cell {
        parent: None,
        set: 1,
    };
    plan.cell_count = 1;
    plan.atom_count = 0;
    plan.free_count = 0;
    plan.label_count = 0;
    Ok(())
}
