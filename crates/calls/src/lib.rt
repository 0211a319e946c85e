//! Lists of the calls strike, hang and show: what they make of a plan, and what holds after every list.
#![tactic(auto)]

ghost use Rattle.calls.specs.CallLaws.{AfterLaw};
ghost use Rattle.calls.specs.Made.{MadeLaw};

use label::kind::Label;

/// What holds after every list of calls on a struck plan: it is sound and in its limits, which names are open,
/// and how many atoms of each label there are.
pub fn calls_stand<L: Label>()
    ensures { AfterLaw L.kind }
{}

/// What holds of a plan that a list of calls made, in terms of the texts that were accepted since the last strike.
pub fn made_stands<L: Label>()
    ensures { MadeLaw L.kind }
{}
