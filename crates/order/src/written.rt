//! The written order: first things first.
ghost use Rattle.order.specs.WrittenOrder.{written};
ghost use Rattle.std.proofs.Common.{rules};

use crate::trying::Order;

/// The order in which things are written.
#[derive(Drop)]
pub struct Written;

impl Order for Written {
    type Row = usize;

    ghost meaning = { written };

    ghost lawful = { Prim.search rules };

    fn row(&self, n: usize) -> usize {
        if n <= 4096 { n } else { 0 }
    }

    fn at(row: usize, k: usize) -> usize {
        if k < row { k } else { 0 }
    }

    fn step(&mut self) {}
}
