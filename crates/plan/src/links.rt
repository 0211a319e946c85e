//! The checks of a plan's links: their ends are counted in one pass, and looked at in a second.
ghost use Rattle.std.specs.Prelude.{◌≡◌, ◌++◌, map, take, replicate};
ghost use Rattle.plan.specs.Model.{node_of};
ghost use Rattle.std.specs.List.{flat_map, list_all};
ghost use Rattle.plan.specs.Sound.{port_links};
ghost use Rattle.plan.specs.Tally.{bumped, tallied, is_twice};
ghost use Rattle.plan.specs.Tests.{links_test};

use crate::limits::LINK_LIMIT;
use crate::tables::{Atom, FreeLink};
use label::kind::Label;

// By `as`: a constant is no place for `From`.
/// A counter for each link.
pub const LINKS: usize = LINK_LIMIT as usize;

/// The links at an atom's ports.
pub fn ports<L: Label>(atom: &Atom<L>) -> &[u16]
    ensures { result.now ≡ take atom.now.arity atom.now.links }
{
    let links: &[u16] = &atom.links;
    links.get(..usize::from(atom.arity)).unwrap_or(links)
}

/// Counts one more end of a link.
fn tally_one(link: u16, counts: &mut [u8])
    ensures { counts.new ≡ bumped link counts.old }
{
    let i = usize::from(link);
    if i < counts.len() && counts[i] < 3 {
        counts[i] += 1;
    }
}

/// Counts the ends at ports.
#[tactic(auto, unfolding(crate::specs::Sound::port_links, crate::specs::Tally::tallied))]
pub fn tally_ports<L: Label>(atoms: &[Atom<L>], counts: &mut [u8])
    ensures { counts.new ≡ tallied (port_links (map node_of atoms.now)) counts.old }
{
    for atom in atoms {
        for link in ports(atom) {
            tally_one(*link, counts);
        }
    }
}

// Beside `tally_ports`: ports and free links are of two types, and each is one loop.
/// Counts the ends that are free links.
#[tactic(auto, unfolding(crate::specs::Tally::tallied))]
pub fn tally_free(free: &[FreeLink], counts: &mut [u8])
    ensures { counts.new ≡ tallied (map (λ f. f.link) free.now) counts.old }
{
    for end in free {
        tally_one(end.link, counts);
    }
}

/// Counts the ends at ports and those that are free links.
fn tally_ends<L: Label>(atoms: &[Atom<L>], free: &[FreeLink], counts: &mut [u8])
    ensures { counts.new ≡ tallied (map (λ f. f.link) free.now) (tallied (port_links (map node_of atoms.now)) counts.old) }
{
    tally_ports(atoms, counts);
    tally_free(free, counts);
}

/// How many ends each link has, as far as three.
pub fn count_ends<L: Label>(atoms: &[Atom<L>], free: &[FreeLink]) -> [u8; LINKS]
    ensures { result ≡ tallied (map (λ f. f.link) free.now) (tallied (port_links (map node_of atoms.now)) (replicate 8256 0)) }
{
    // One place for each link that a plan may have, and no length of its own.
    let mut counts = [0; LINKS];
    tally_ends(atoms, free, &mut counts);
    counts
}

/// Whether a link was counted twice.
fn is_twice(link: u16, counts: &[u8]) -> bool
    ensures { result ≡ is_twice counts.now link }
{
    counts.get(usize::from(link)) == Some(&2)
}

/// Whether each of these links was counted twice.
fn links_twice(links: &[u16], counts: &[u8]) -> bool
    ensures { result ≡ list_all (is_twice counts.now) links.now }
{
    links.iter().all(|link| is_twice(*link, counts))
}

/// Whether the link of every port was counted twice.
fn ports_twice<L: Label>(atoms: &[Atom<L>], counts: &[u8]) -> bool
    ensures { result ≡ list_all (λ a. list_all (is_twice counts.now) (node_of a).links) atoms.now }
{
    atoms.iter().all(|atom| links_twice(ports(atom), counts))
}

/// Whether the link of every free link was counted twice.
fn free_twice(free: &[FreeLink], counts: &[u8]) -> bool
    ensures { result ≡ list_all (λ f. is_twice counts.now f.link) free.now }
{
    free.iter().all(|end| is_twice(end.link, counts))
}

/// Whether the link of each end was counted twice, at ports and free.
fn ends_twice<L: Label>(atoms: &[Atom<L>], free: &[FreeLink], counts: &[u8]) -> bool
    ensures { result ≡ list_all (is_twice counts.now) (flat_map (λ a. (node_of a).links) atoms.now ++ map (λ f. f.link) free.now) }
{
    // A list for each atom and one for the free links: one chain of both looks at its state for each end.
    ports_twice(atoms, counts) && free_twice(free, counts)
}

/// Whether every link is low enough and has two ends.
pub(crate) fn links_sound<L: Label>(atoms: &[Atom<L>], free: &[FreeLink]) -> bool
    ensures { result ≡ links_test (map node_of atoms.now) free.now }
{
    // Counted in place: the counters that `count_ends` gives are copied.
    let mut counts = [0; LINKS];
    tally_ends(atoms, free, &mut counts);
    ends_twice(atoms, free, &counts)
}
