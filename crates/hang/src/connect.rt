//! Absorbing connectors.
ghost use Rattle.std.specs.Prelude.{◌≡◌, ◌≤◌, true, map, length, take, nat_le};
ghost use Rattle.plan.specs.Model.{node_of};
ghost use Rattle.std.specs.List.{list_all};
ghost use Rattle.placing.specs.Placing.{become as becomes, joined, put as puts, refreed, relinked};

use label::kind::Label;
use plan::tables::{Atom, FreeLink};

/// One link in place of another.
fn put(from: u16, to: u16, link: u16) -> u16
    ensures { result ≡ puts from to link }
{
    if link == from { to } else { link }
}

/// What a link has become.
fn become_of(became: &[u16], link: u16) -> u16
    ensures { result ≡ becomes became.now link }
{
    became.get(usize::from(link)).copied().unwrap_or(link)
}

/// A connector: the second link stands for the first.
#[tactic(auto, using(crate::proofs::Relinking::map_next))]
pub(crate) fn join(became: &mut [u16], first: u16, second: u16)
    ensures { became.new ≡ joined first second became.old }
{
    let from = become_of(became, first);
    let to = become_of(became, second);
    for link in became.iter_mut() {
        *link = put(from, to, *link);
    }
}

/// Puts what each link has become in its place.
#[tactic(auto, using(crate::proofs::Relinking::map_next))]
fn relink_ports(links: &mut [u16], became: &[u16])
    ensures { links.new ≡ map (becomes became.now) links.old }
{
    for link in links.iter_mut() {
        *link = become_of(became, *link);
    }
}

/// Puts the ports of atoms on what their links have become.
pub(crate) fn relink_atoms<L: Label>(atoms: &mut [Atom<L>], became: &[u16])
    ensures atoms { map node_of atoms.new ≡ map (relinked became.now) (map node_of atoms.old) }
    ensures fit { list_all (λ a. nat_le a.arity 8) atoms.new ≡ list_all (λ a. nat_le a.arity 8) atoms.old }
{
    for atom in atoms.iter_mut() {
        relink_ports(&mut atom.links, became);
    }
}

// Beside `relink_ports`: ports and free links are of two types, and each is one loop.
/// Puts free links on what their links have become.
#[tactic(auto, using(crate::proofs::Relinking::map_next))]
pub(crate) fn relink_free(free: &mut [FreeLink], became: &[u16])
    ensures { free.new ≡ map (refreed became.now) free.old }
{
    for row in free.iter_mut() {
        row.link = become_of(became, row.link);
    }
}
