//! Taking a row out of a table.
ghost use Rattle.std.specs.Prelude.{◌≡◌, ◌-◌, ◌<◌, ◌≤◌, length, take, drop};
ghost use Rattle.std.specs.List.{remove};

// A table is the caller's memory, with the number of its rows beside it: so no `Vec` holds it.
/// Takes a row out of the first `count`. Those after it move up, in their order, and the rows from the last of them on stay.
#[tactic(auto, using(crate::proofs::Rows::taken_out))]
pub fn remove_row<T: Copy>(rows: &mut [T], count: usize, at: usize)
    requires within { at < count }
    requires room { count ≤ length rows.old }
    ensures first { take (count - 1) rows.new ≡ remove (take count rows.old) at }
    ensures rest { drop (count - 1) rows.new ≡ drop (count - 1) rows.old }
{
    rows.copy_within(at + 1..count, at);
}
