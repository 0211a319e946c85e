//! Placing a whole text on a plan.
ghost use Rattle.std.specs.Prelude.{◌≡◌, ◌≤◌, length};
ghost use Rattle.grammar.specs.Pull.{left};
ghost use Rattle.plan.specs.Model.{model_of};
ghost use Rattle.placing.specs.Placing.{absorbed, begun, place_all};
ghost use Rattle.hang.specs.Linked.{link_in};
ghost use Rattle.hang.specs.Hand.{Placeable, Placed, fresh_hand};

use crate::connect::{relink_atoms, relink_free};
use crate::hand::Hand;
use crate::linked::Linked;
use crate::place::place_rest;
use grammar::reader::Reader;
use label::kind::Label;
use plan::tables::{FreeLink, Plan};
use std::array;

/// No link has become another yet.
fn fresh_hand() -> Hand
    ensures { result ≡ fresh_hand }
{
    Hand {
        inside: 0,
        first: 0,
        // Proved to fit, so no `try_from`, which could fail.
        became: array::from_fn(|link| link as u16),
    }
}

/// Places what a reader has yet to give on a plan, and puts free links in the place of the plan's own.
pub(crate) fn place_text<L: Label>(
    plan: &mut Plan<'_, L>,
    reader: &mut Reader<'_>,
    linked: &Linked<'_>,
    free: &[FreeLink],
)
    requires ready { Placeable L.Label.kind (link_in linked.now) plan.old fresh_hand (left L.Label.kind reader.old) }
    requires room { length free.now ≤ length plan.old.free.now }
    ensures model { model_of plan.new ≡ absorbed (place_all L.Label.kind (link_in linked.now) (begun (model_of plan.old)) (left L.Label.kind reader.old)) free.now }
    ensures placed { Placed plan.old plan.new }
{
    let mut hand = fresh_hand();
    place_rest(plan, &mut hand, reader, linked);
    relink_atoms(&mut plan.atoms[..plan.atom_count], &hand.became);
    let rows = free.len();
    plan.free[..rows].copy_from_slice(free);
    relink_free(&mut plan.free[..rows], &hand.became);
    plan.free_count = rows;
}
