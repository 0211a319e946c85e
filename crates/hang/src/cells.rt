//! Cells of a plan.
ghost use Rattle.std.specs.Prelude.{◌≡◌, ◌≤◌, length};
ghost use Rattle.plan.specs.Model.{model_of};
ghost use Rattle.placing.specs.Placing.{parent_of};

use label::kind::Label;
use plan::tables::Plan;

/// The parent of a cell, or the root where it has none.
pub(crate) fn parent_of<L: Label>(plan: &Plan<'_, L>, cell: u8) -> u8
    requires { plan.now.cell_count ≤ length plan.now.cells.now }
    ensures { result ≡ parent_of (model_of plan.now).cells cell }
{
    plan.cells[..plan.cell_count]
        .get(usize::from(cell))
        .and_then(|row| row.parent)
        .unwrap_or(0)
}
