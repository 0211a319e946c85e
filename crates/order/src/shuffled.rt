//! The shuffled order: it differs from seed to seed and from step to step, and is the same whenever the seed is.
ghost use Rattle.order.specs.Divisors.{OneStride};
ghost use Rattle.order.specs.ShuffledOrder.{ByAnyStride, Worked, shuffled};
ghost use Rattle.order.specs.Shuffle.{shuffled_lawful};

use crate::stride::stride;
use crate::trying::Order;

/// The order that a seed gives. The seed alone decides it.
#[derive(Drop)]
pub struct Shuffled {
    pub seed: u32,
}

/// The places of a shuffled order for one number of things: from the first on, each is a stride after the one before, and round again.
#[derive(Clone, Copy, Default)]
pub struct Round {
    count: u16,
    first: u16,
    stride: u16,
}

impl Order for Shuffled {
    type Row = Round;

    ghost meaning = { shuffled };

    ghost lawful = { shuffled_lawful };

    #[tactic(auto, using(crate::specs::Shuffle::row_held))]
    fn row(&self, n: usize) -> Round {
        if n == 0 || n > 4096 {
            return Round::default();
        }
        // Proved to fit, so no `try_from`, which could fail.
        let n = n as u16;
        let high = 1 + (self.seed / 65536) % u32::from(n);
        Round {
            count: n,
            first: (self.seed % u32::from(n)) as u16,
            stride: stride(n, high as u16),
        }
    }

    fn at(row: Round, k: usize) -> usize {
        let count = usize::from(row.count);
        if k < count {
            (usize::from(row.first) + k * usize::from(row.stride)) % count
        } else {
            0
        }
    }

    fn step(&mut self) {
        self.seed = self.seed.wrapping_mul(1664525).wrapping_add(1013904223);
    }
}

/// What the shuffled order rests on: there is one stride and no other, the places go by it, and an example.
#[tactic(auto, using(crate::specs::Shuffle::one_stride, crate::specs::Shuffle::by_any_stride, crate::specs::Shuffle::worked))]
pub fn shuffled_stands()
    ensures stride { OneStride }
    ensures places { ByAnyStride }
    ensures example { Worked }
{}
