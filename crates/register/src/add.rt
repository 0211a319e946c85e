//! Counting one atom more.
ghost use Rattle.std.specs.Prelude.{◌≡◌, ◌≤◌, true, length, take, nat_lt};
ghost use Rattle.plan.specs.Places.{Filed};
ghost use Rattle.std.specs.List.{list_all};
ghost use Rattle.register.specs.Laws.{AddingLaw};
ghost use Rattle.register.specs.Rows.{added};

use crate::insert::insert_row;
use crate::seek::seek;
use label::kind::Label;
use plan::register::Register;
use plan::tables::Census;

// The rows are the caller's memory, the first `count` of them the register, and no label in it need be one: so what is asked of these are clauses, and no types.
/// Counts one atom more of a label in the first `count` rows, and gives how many rows there are then.
/// A label that has no row gets one in the labels' order. Where the rows were right for some atoms, they are right for these and one more of the label.
pub fn add_label<L: Label>(rows: &mut [Census<L>], count: usize, label: L) -> usize
    requires within { count ≤ length rows.old }
    requires filed { Filed L.Label.kind (take count rows.old) }
    requires mine { L.Label.kind.mine label ≡ true }
    requires room { length (added L.Label.kind label (take count rows.old)) ≤ length rows.old }
    requires fits { list_all (λ c. nat_lt c.atoms 65535) (take count rows.old) ≡ true }
    ensures number { result ≡ length (added L.Label.kind label (take count rows.old)) }
    ensures register { take result rows.new ≡ added L.Label.kind label (take count rows.old) }
    ensures right { AddingLaw L.Label.kind label (take count rows.old) (take result rows.new) }
{
    let register = Register {
        rows: &rows[..count],
    };
    match seek(label, &register) {
        Ok(at) => {
            rows[at].atoms += 1;
            count
        }
        Err(at) => {
            insert_row(rows, count, at, Census { label, atoms: 1 });
            count + 1
        }
    }
}
