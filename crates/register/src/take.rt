//! Counting one atom less.
ghost use Rattle.std.specs.Prelude.{◌≡◌, ◌≤◌, true, length, take};
ghost use Rattle.plan.specs.Places.{Filed};
ghost use Rattle.register.specs.Laws.{TakingLaw};
ghost use Rattle.register.specs.Rows.{taken};

use crate::seek::seek;
use label::kind::Label;
use plan::register::Register;
use plan::remove::remove_row;
use plan::tables::Census;

// The rows are the caller's memory, the first `count` of them the register, and no label in it need be one: so what is asked of these are clauses, and no types.
/// Counts one atom less of a label in the first `count` rows, and gives how many rows there are then.
/// The row goes with its last atom, and a label that has no row changes nothing.
/// Where the rows were right for some atoms, they are right for these without one of the label.
pub fn take_label<L: Label>(rows: &mut [Census<L>], count: usize, label: L) -> usize
    requires within { count ≤ length rows.old }
    requires filed { Filed L.Label.kind (take count rows.old) }
    requires mine { L.Label.kind.mine label ≡ true }
    ensures number { result ≡ length (taken L.Label.kind label (take count rows.old)) }
    ensures register { take result rows.new ≡ taken L.Label.kind label (take count rows.old) }
    ensures right { TakingLaw L.Label.kind label (take count rows.old) (take result rows.new) }
{
    let register = Register {
        rows: &rows[..count],
    };
    let Ok(at) = seek(label, &register) else {
        return count;
    };
    if rows[at].atoms <= 1 {
        remove_row(rows, count, at);
        count - 1
    } else {
        rows[at].atoms -= 1;
        count
    }
}
