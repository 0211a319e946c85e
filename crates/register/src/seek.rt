//! The place of a label in a register.
ghost use Rattle.std.specs.Prelude.{◌≡◌, true, length};
ghost use Rattle.std.specs.List.Sorted.{IsSearchInRange};
ghost use Rattle.register.specs.Rows.{sought};

use label::kind::Label;
use plan::register::Register;

// Beside `Register::position`: the checks ask whether a label has a row, the upkeep where one would go. Each is one call of the library.
/// The row of a label, or else the place at which a row of it would go.
pub(crate) fn seek<L: Label>(label: L, register: &Register<'_, L>) -> Result<usize, usize>
    requires { L.Label.kind.mine label ≡ true }
    ensures within { IsSearchInRange result (length register.now.rows.now) }
    ensures is { result ≡ sought L.Label.kind label register.now.rows.now }
{
    register
        .rows
        .binary_search_by(|row| row.label.compare(label))
}
