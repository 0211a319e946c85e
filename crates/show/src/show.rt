//! Showing a plan.
ghost use Rattle.std.specs.Prelude.{◌≡◌, true, length};
ghost use Rattle.plan.specs.Model.{model_of};
ghost use Rattle.plan.specs.Sound.{Sound, counts_fit};
ghost use Rattle.showing.specs.Reading.{ShownReadable};
ghost use Rattle.showing.specs.Shown.{shown, show_answer, show_buffer};
ghost use Rattle.roundtrip.specs.Roundtrip.{RoundTrip};
ghost use Rattle.show.specs.Page.{page_of, pasted};
ghost use Rattle.show.specs.Steps.{plan_written};

use crate::scribe::Scribe;
use fault::{Fault, Refusal};
use label::kind::Label;
use plan::check::is_sound;
use plan::links::LINKS;
use plan::tables::Plan;
use showing::last::Last;
use text::limits::DEPTH_LIMIT;

impl Scribe<'_> {
    /// Writes a plan: what is in the root, the connectors between free links, and the end.
    fn put_plan<L: Label>(&mut self, plan: &Plan<'_, L>)
        requires { counts_fit plan.now ≡ true }
        ensures { page_of self.new ≡ plan_written L.Label.kind (model_of plan.now) (page_of self.old) }
    {
        self.put_cell(plan, 0, DEPTH_LIMIT + 1);
        self.put_ties::<L>();
        self.put_end();
    }
}

/// Writes the text of a plan into a buffer, as far as it goes, and gives how many bytes the text has.
fn write_plan<L: Label>(plan: &Plan<'_, L>, out: &mut [u8]) -> usize
    requires { Sound L.Label.kind plan.now }
    ensures answer { result ≡ length (shown L.Label.kind (model_of plan.now)) }
    ensures bytes { out.new ≡ pasted (shown L.Label.kind (model_of plan.now)) out.old }
{
    let free = &*plan.free;
    let mut scribe = Scribe {
        out,
        len: 0,
        last: Last::Nothing,
        free: &free[..plan.free_count],
        numbers: [None; LINKS],
        count: 0,
    };
    scribe.put_plan(plan);
    scribe.len
}

/// Writes a plan's text to the front of `out`, and gives how many bytes it has.
/// A plan that is not sound is refused, and a buffer that is too short; the buffer is then left as it was.
/// The text of a sound plan has at most 65,535 bytes. Hung on a plan after a strike, of the same limits, it is accepted, and that plan shows the same bytes.
pub fn show<L: Label>(plan: &Plan<'_, L>, out: &mut [u8]) -> Result<usize, Fault>
    ensures answer { result ≡ show_answer L.Label.kind plan.now (length out.old) }
    ensures bytes { out.new ≡ show_buffer L.Label.kind plan.now out.old result }
    ensures short { ShownReadable L.Label.kind }
    ensures again { RoundTrip L.Label.kind }
{
    if !is_sound(plan) {
        return Err(Refusal::UnsoundPlan.into());
    }
    let length = write_plan(plan, &mut []);
    if length > out.len() {
        return Err(Refusal::ShortBuffer.into());
    }
    Ok(write_plan(plan, out))
}
