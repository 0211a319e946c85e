//! Placing ports.
ghost use Rattle.std.specs.Prelude.{◌≡◌, ◌<◌, ◌≤◌, true, map, length, nat_le};
ghost use Rattle.std.specs.List.{list_all};
ghost use Rattle.plan.specs.Model.{node_of};
ghost use Rattle.placing.specs.Placing.{with_port};
ghost use Rattle.hang.specs.Hand.{last_ports, ported};

use label::kind::Label;
use plan::tables::Atom;

/// Gives an atom one port more.
pub(crate) fn add_port<L: Label>(atom: &mut Atom<L>, link: u16)
    requires { length (node_of atom.old).links < 8 }
    ensures is { atom.new ≡ ported link atom.old }
    ensures room { (atom.old.arity < length atom.old.links) × (atom.new.arity ≤ 8) }
{
    let port = atom.arity;
    atom.links[usize::from(port)] = link;
    atom.arity = port + 1;
}
