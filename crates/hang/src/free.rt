//! The free links after a text.
ghost use Rattle.std.specs.Prelude.{◌≡◌, ◌≤◌, length, IfOk, is_ok, nat_le, ◌==◌};
ghost use Rattle.grammar.specs.Names.{names_of};
ghost use Rattle.grammar.specs.State.{times};
ghost use Rattle.plan.specs.Model.{model_of};
ghost use Rattle.plan.specs.Sound.{free_limit};
ghost use Rattle.placing.specs.Links.{opens as is_opening};
ghost use Rattle.hang.specs.Linked.{free_linked};

use crate::linked::Linked;
use crate::links::open_link;
use arrayvec::{ArrayVec, CapacityError};
use grammar::stand::Standing;
use grammar::table::Names;
use label::kind::Label;
use plan::limits::FREE_LIMIT;
use plan::tables::{FreeLink, Plan};
use text::packed::Name;

/// Whether a name stands just once in a text with these names.
fn stands_once(name: Name, names: &Names) -> bool
    ensures { result ≡ (times name (names_of names.now) == 1) }
{
    names.times_at(names.find(name)) == 1
}

/// Whether a name of a text opens: it stands once, and is not open on the plan.
fn opens(standing: &Standing, free: &[FreeLink]) -> bool
    ensures { result ≡ is_opening free.now standing.now }
{
    !standing.twice && open_link(standing.name, free).is_none()
}

/// The free links of the plan after a text, those that stay and those that it opens, unless they are more than a plan may have.
pub(crate) fn list_free<L: Label>(
    plan: &Plan<'_, L>,
    linked: &Linked<'_>,
) -> Result<ArrayVec<FreeLink, FREE_LIMIT>, CapacityError<FreeLink>>
    requires { plan.now.free_count ≤ length plan.now.free.now }
    ensures few { is_ok result ≡ nat_le (length (free_linked (model_of plan.now).free linked.now)) free_limit }
    ensures links { IfOk result (λ list. list.items ≡ free_linked (model_of plan.now).free linked.now) }
{
    let free = &plan.free[..plan.free_count];
    let names = linked.names;
    let mut list = ArrayVec::new();
    for link in free {
        if !stands_once(link.name, names) {
            list.try_push(*link)?;
        }
    }
    for (standing, link) in names.as_slice().iter().zip(&linked.links) {
        if opens(standing, free) {
            list.try_push(FreeLink {
                name: standing.name,
                link: *link,
            })?;
        }
    }
    Ok(list)
}
