//! What hanging a text makes of a plan, and the laws of it.
#![tactic(auto)]

ghost use Rattle.placing.specs.Counts.{EventsRight};
ghost use Rattle.placing.specs.Keeps.{HangSound};
ghost use Rattle.placing.specs.Laws.{HangLaw};
ghost use Rattle.placing.specs.NamesOf.{NamesLaw};

use label::kind::Label;

/// What the grammar sees to in the events of every text: their order, at most 64 connectors, and the numbers of the sheet.
pub fn events_stand<L: Label>()
    ensures { EventsRight L.kind }
{}

/// The table of a text's names says how often each stands in its events.
pub fn names_stand<L: Label>()
    ensures { NamesLaw L.kind }
{}

/// What a text without fault makes of any plan: which names are open after it, how many atoms of each label there are,
/// and that nothing else of what was there changes but the links.
pub fn hang_stands<L: Label>()
    ensures { HangLaw L.kind }
{}

/// A text without fault, hung on a sound plan, leaves a sound plan where its atoms and free links are not too many.
pub fn sound_stands<L: Label>()
    ensures { HangSound L.kind }
{}
