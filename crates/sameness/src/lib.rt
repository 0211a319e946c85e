//! Plans that are the same but for the numbers of their links, and but for these and the order of rows.
#![tactic(auto)]

ghost use Rattle.sameness.specs.Ends.{LinksPaired};
ghost use Rattle.sameness.specs.Keeping.{RenamingHung, RenamingShown, RenamingSound};
ghost use Rattle.sameness.specs.Renaming.{RenamedEquivalence};
ghost use Rattle.sameness.specs.Reordering.{ReorderedEquivalence};

use label::kind::Label;

/// To be the same but for links is an equivalence of plans.
pub fn renaming_stands<L: Label>()
    ensures { RenamedEquivalence L }
{}

/// To be the same but for links and the order of rows is an equivalence of plans, wider than to be the same but for links.
pub fn reordering_stands<L: Label>()
    ensures { ReorderedEquivalence L }
{}

/// On a sound plan every link has two ends, each a port of an atom or a free link, and no third.
pub fn ends_stand<L: Label>()
    ensures { LinksPaired L.kind }
{}

/// A sound plan stays sound where its links are renamed within the limit.
pub fn sound_renamed<L: Label>()
    ensures { RenamingSound L.kind }
{}

/// Plans that are the same but for links show the same text, and get the same answer from show.
pub fn shown_renamed<L: Label>()
    ensures { RenamingShown L.kind }
{}

/// Sound plans that are the same but for links are so after a text is hung on them, and get the same answer from hang.
pub fn hung_renamed<L: Label>()
    ensures { RenamingHung L.kind }
{}
