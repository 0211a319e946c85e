//! Putting a row into a table.
ghost use Rattle.std.specs.Prelude.{◌≡◌, ◌+◌, ◌<◌, ◌≤◌, length, take, drop};
ghost use Rattle.std.specs.List.{insert};

// A table is the caller's memory, with the number of its rows beside it: so no `Vec` holds it.
/// Puts a row among the first `count`. Those from its place on move down, in their order, and the rows after them stay.
#[tactic(auto, using(crate::proofs::Inserting::put_in))]
pub(crate) fn insert_row<T: Copy>(rows: &mut [T], count: usize, at: usize, row: T)
    requires within { at ≤ count }
    requires room { count < length rows.old }
    ensures first { take (count + 1) rows.new ≡ insert (take count rows.old) at row }
    ensures rest { drop (count + 1) rows.new ≡ drop (count + 1) rows.old }
{
    rows.copy_within(at..count, at + 1);
    rows[at] = row;
}
