//! What becomes of a shown plan that is hung again.
#![tactic(auto)]

ghost use Rattle.roundtrip.specs.Roundtrip.{RoundTrip};

use label::kind::Label;

/// The text of a sound plan hangs on an empty plan, gives as many atoms, cells, free links and labels as it had,
/// and the plan that it gives shows the same bytes.
pub fn roundtrip_stands<L: Label>()
    ensures { RoundTrip L.kind }
{}
