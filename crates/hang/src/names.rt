//! The names of a text with their links on a plan.
ghost use Rattle.std.specs.Prelude.{◌≡◌, ◌≤◌, length};
ghost use Rattle.grammar.specs.Names.{names_of};
ghost use Rattle.plan.specs.Model.{model_of};
ghost use Rattle.placing.specs.Placing.{links_in};
ghost use Rattle.hang.specs.Linked.{link_in};

use crate::linked::Linked;
use crate::links::assign_links;
use crate::unused::list_unused;
use grammar::table::Names;
use label::kind::Label;
use plan::tables::Plan;
use text::packed::Name;

impl Linked<'_> {
    /// The link of a name of the text.
    pub(crate) fn link_of(&self, name: Name) -> u16
        ensures { result ≡ link_in self.now name }
    {
        match self.names.find(name) {
            Some(row) => self.links[row],
            None => 0,
        }
    }
}

/// The names of a text with their links on a plan.
pub(crate) fn link_names<'n, L: Label>(plan: &Plan<'_, L>, names: &'n Names) -> Linked<'n>
    requires atoms { plan.now.atom_count ≤ length plan.now.atoms.now }
    requires free { plan.now.free_count ≤ length plan.now.free.now }
    ensures names { result.names.now ≡ names.now }
    ensures links { result.links.items ≡ links_in (model_of plan.now) (names_of names.now) }
{
    let atoms = &plan.atoms[..plan.atom_count];
    let free = &plan.free[..plan.free_count];
    let unused = list_unused(atoms, free);
    let links = assign_links(&names.rows, free, &unused);
    Linked { names, links }
}
