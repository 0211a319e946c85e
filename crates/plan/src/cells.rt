//! The checks of a plan's cells.
ghost use Rattle.std.specs.Prelude.{◌≡◌, length, nat_le, slice_index_or};
ghost use Rattle.std.specs.List.{list_all, range_with_len};
ghost use Rattle.plan.specs.Sound.{is_root, leads, no_cell};
ghost use Rattle.plan.specs.Tests.{cells_test};

use crate::tables::Cell;
use text::limits::{DEPTH_LIMIT, SET_LIMIT};

/// Whether the first cell lies in no cell and has set 1.
fn root_first(cells: &[Cell]) -> bool
    ensures { result ≡ is_root cells.now }
{
    cells
        .first()
        .is_some_and(|root| root.parent.is_none() && root.set == 1)
}

/// Whether no set is too high.
fn sets_fit(cells: &[Cell]) -> bool
    ensures { result ≡ list_all (λ c. nat_le c.set 15) cells.now }
{
    cells.iter().all(|cell| cell.set <= SET_LIMIT)
}

/// The row of the cell around a cell, if the row has a cell and it lies in one.
fn parent(cells: &[Cell], row: usize) -> Option<usize>
    ensures { result ≡ (slice_index_or cells.now row no_cell).parent }
{
    cells.get(row)?.parent.map(usize::from)
}

/// Whether a cell leads to the root through few enough parents.
#[tactic(auto, using(crate::proofs::Leads::at_root, crate::proofs::Leads::at_end, crate::proofs::Leads::one_up, crate::proofs::Leads::no_more))]
fn leads_up(cells: &[Cell], from: usize) -> bool
    ensures { result ≡ leads 16 cells.now from }
{
    let mut at = from;
    for _ in 0..DEPTH_LIMIT {
        if at == 0 {
            return true;
        }
        let Some(above) = parent(cells, at) else {
            return false;
        };
        at = above;
    }
    at == 0
}

/// Whether every cell leads to the root.
fn all_lead_up(cells: &[Cell]) -> bool
    ensures { result ≡ list_all (leads 16 cells.now) (range_with_len 0 (length cells.now)) }
{
    (0..cells.len()).all(|row| leads_up(cells, row))
}

/// Whether the cells are as a sound plan has them.
#[tactic(auto, using(crate::proofs::Each::rows_are))]
pub(crate) fn cells_sound(cells: &[Cell]) -> bool
    ensures { result ≡ cells_test cells.now }
{
    root_first(cells) && all_lead_up(cells) && sets_fit(cells)
}
