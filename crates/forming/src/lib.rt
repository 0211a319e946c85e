//! What hanging a text means, by the form of the text: items in cells, and not the events that a reader gives.
#![tactic(auto)]

ghost use Rattle.forming.specs.Events.{FormLaw};
ghost use Rattle.forming.specs.Joins.{JoinLaw};
ghost use Rattle.forming.specs.Places.{PlaceLaw};
ghost use Rattle.forming.specs.Rewriting.{RewritingLaw};

use label::kind::Label;

/// A text without fault has one form, whose items say the events of the text in their order.
pub fn form_stands<L: Label>()
    ensures { FormLaw L.kind }
{}

/// Each atom and each cell of a text is on the plan once after it, in the cell of the braces directly around it: an atom with
/// its label and its names' links, a cell with its set. The names that the text opens follow the open names that stay.
pub fn place_stands<L: Label>()
    ensures { PlaceLaw L.kind }
{}

/// After a text two ends lie on one link exactly where its connectors, and the names that close a free link, join what they hang by:
/// an end that was there by its old link, an end that the text writes by its name.
pub fn join_stands<L: Label>()
    ensures { JoinLaw L.kind }
{}

/// A text with some connectors turned, and with other names for those that stand twice, gives the same plan but for the numbers of links
/// and the rows of free links.
pub fn rewriting_stands<L: Label>()
    ensures { RewritingLaw L.kind }
{}
