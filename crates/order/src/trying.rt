//! What every order of trying can do.
ghost use Rattle.std.specs.Prelude.{◌≡◌, ℕ, length};
ghost use Rattle.order.specs.Trying.{AllTried, Lawful, Meaning, Reaches, RowOf, answer, listing};

/// An order of trying: for each n from 1 to 4,096 and each k below n, which of n things is tried k-th. Different k have different places.
/// Any other n or k is answered by 0. Asking changes nothing; a step makes the order the one that follows.
///
/// Who asks for many places of one n takes its row first, and asks the row: it has the same answers at less cost.
pub trait Order {
    type Row: Copy;

    ghost meaning: { Meaning Self Self.Row };

    // 0 and no `None` outside the range: asking cannot fail, and a buyer's order says so too.
    /// The place of the k-th try among n.
    fn place(&self, n: usize, k: usize) -> usize
        ensures { result ≡ answer (meaning.place self.now) n k }
    {
        Self::at(self.row(n), k)
    }

    /// The places for one n.
    fn row(&self, n: usize) -> Self::Row
        ensures { RowOf meaning self.now n result };

    /// The place of the k-th try in a row.
    fn at(row: Self::Row, k: usize) -> usize
        ensures { result ≡ meaning.held row k };

    /// Goes on to the order that follows.
    fn step(&mut self)
        ensures { self.new ≡ meaning.next self.old };

    ghost lawful: { Lawful meaning };
}

/// Writes the places of as many things as `out` has room for, in the order of trying. More than 4,096 are all answered by 0.
pub fn places<O: Order>(order: &O, out: &mut [u16])
    ensures listed { out.new ≡ listing (O.meaning.place order.now) (length out.old) }
    ensures tried { AllTried out.new }
{
    let row = order.row(out.len());
    for (k, place) in out.iter_mut().enumerate() {
        // Proved to fit, so no `try_from`, which could fail.
        *place = O::at(row, k) as u16;
    }
}

/// Every order reaches all: to try each k below n is to try each of n things.
#[tactic(auto, using(crate::proofs::Reach::reaches))]
pub fn reach_stands<O: Order>(order: &O)
    ensures { Reaches (O.meaning.place order.now) }
{}
