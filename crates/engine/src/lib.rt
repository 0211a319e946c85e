//! The calls of the engine on a plan, with what holds of every list of them.
#![tactic(auto)]

ghost use Rattle.std.specs.Prelude.{◌≡◌, true, length, is_ok, MatchResult};
ghost use Rattle.plan.specs.Model.{SameTables, model_of, strike_answer, struck, tables_of};
ghost use Rattle.plan.specs.Sound.{Sound};
ghost use Rattle.placing.specs.Answer.{hang_answer, hung_text};
ghost use Rattle.placing.specs.Laws.{HangLaws};
ghost use Rattle.showing.specs.Reading.{ShownReadable};
ghost use Rattle.showing.specs.Shown.{show_answer, show_buffer};
ghost use Rattle.roundtrip.specs.Roundtrip.{RoundTrip};
ghost use Rattle.calls.specs.Made.{HangFollows, ShowFollows, StrikeFollows};

use fault::Fault;
use label::kind::Label;
use plan::tables::Plan;

/// Empties any plan, sound or not: one cell, the root, and nothing else. What is left is sound.
/// A list of calls begins with it, or goes on with it.
pub fn strike<L: Label>(plan: &mut Plan<'_, L>) -> Result<(), Fault>
    ensures answer { result ≡ strike_answer plan.old }
    ensures after { MatchResult result (λ _. model_of plan.new ≡ struck) (λ _. tables_of plan.new ≡ tables_of plan.old) }
    ensures tables { SameTables plan.old plan.new }
    ensures sound { is_ok result ≡ true → Sound L.Label.kind plan.new }
    ensures calls { StrikeFollows L.Label.kind plan.old plan.new result }
{
    plan::strike::strike(plan)
}

/// Adds a text on the root of a plan. Refused by the fault of the text, then 20 where the plan is not sound, then 21 where the
/// tables do not take the plan after it; a refusal changes no row. The plan after it is sound.
/// After calls it leaves the plan that they make with it.
pub fn hang<L: Label>(plan: &mut Plan<'_, L>, text: &[u8]) -> Result<(), Fault>
    ensures answer { result ≡ hang_answer L.Label.kind plan.old text.now }
    ensures after { MatchResult result (λ _. model_of plan.new ≡ hung_text L.Label.kind (model_of plan.old) text.now) (λ _. tables_of plan.new ≡ tables_of plan.old) }
    ensures tables { SameTables plan.old plan.new }
    ensures sound { is_ok result ≡ true → Sound L.Label.kind plan.new }
    ensures laws { is_ok result ≡ true → HangLaws L.Label.kind (model_of plan.old) text.now }
    ensures calls { HangFollows L.Label.kind plan.old plan.new text.now result }
{
    hang::hang::hang(plan, text)
}

/// Writes a plan's text to the front of `out`, and gives how many bytes it has.
/// A plan that is not sound is refused, and a buffer that is too short; the buffer is then left as it was.
/// The text of a sound plan has at most 65,535 bytes; hung on a plan after a strike, of the same limits, it is accepted, and that
/// plan shows the same bytes. After calls it writes the text of the plan that they make.
pub fn show<L: Label>(plan: &Plan<'_, L>, out: &mut [u8]) -> Result<usize, Fault>
    ensures answer { result ≡ show_answer L.Label.kind plan.now (length out.old) }
    ensures bytes { out.new ≡ show_buffer L.Label.kind plan.now out.old result }
    ensures short { ShownReadable L.Label.kind }
    ensures again { RoundTrip L.Label.kind }
    ensures calls { ShowFollows L.Label.kind plan.now out.old out.new result }
{
    show::show::show(plan, out)
}
