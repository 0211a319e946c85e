//! Desks for either kind of labels.
ghost use Rattle.std.specs.Prelude.{◌≡◌, length, IfOk};
ghost use Rattle.desk.specs.Calls.{shown_over};
ghost use Rattle.desk.specs.Either.{Prepared, hang_answered, kind_in, past_hang, past_strike, rows_in, show_answered, state_of, strike_answered, text_in, unstruck};

use crate::desk::{Desk, Rows, blank};
use fault::Fault;
use label::named::KindName;
use label::word::WordLabel;
use label::word_or_number::WordOrNumber;
use std::alloc::{AllocError, Global};

/// A desk with the kind of its labels.
#[derive(Drop)]
pub enum EitherDesk {
    Words(Desk<WordLabel>),
    Numbers(Desk<WordOrNumber>),
}

// Each method is a `match`: the two desks have different types, and a closure takes one type only.
impl EitherDesk {
    /// A desk with tables of so many rows, none of which counts.
    pub fn new(heap: Global, kind: KindName, rows: Rows) -> Result<EitherDesk, AllocError>
        ensures { IfOk result (λ d. state_of d ≡ unstruck kind rows) }
    {
        match kind {
            KindName::Words => Ok(EitherDesk::Words(blank(heap, WordLabel(0), rows)?)),
            KindName::Numbers => Ok(EitherDesk::Numbers(blank(
                heap,
                WordOrNumber::Number(0),
                rows,
            )?)),
        }
    }

    /// The kind of labels.
    pub fn kind(&self) -> KindName
        ensures { result ≡ kind_in (state_of self.now) }
    {
        match self {
            EitherDesk::Words(_) => KindName::Words,
            EitherDesk::Numbers(_) => KindName::Numbers,
        }
    }

    /// How many rows each table has.
    pub fn rows(&self) -> Rows
        ensures { result ≡ rows_in (state_of self.now) }
    {
        match self {
            EitherDesk::Words(desk) => desk.rows(),
            EitherDesk::Numbers(desk) => desk.rows(),
        }
    }

    /// Strikes the plan.
    pub fn strike(&mut self) -> Result<(), Fault>
        ensures answer { result ≡ strike_answered (state_of self.old) }
        ensures after { state_of self.new ≡ past_strike (state_of self.old) }
        ensures prepared { Prepared self.new }
    {
        match self {
            EitherDesk::Words(desk) => desk.strike(),
            EitherDesk::Numbers(desk) => desk.strike(),
        }
    }

    /// Hangs a text on the plan.
    pub fn hang(&mut self, text: &[u8]) -> Result<(), Fault>
        requires prepared { Prepared self.old }
        ensures answer { result ≡ hang_answered (state_of self.old) text.now }
        ensures after { state_of self.new ≡ past_hang (state_of self.old) text.now }
        ensures prepared { Prepared self.new }
    {
        match self {
            EitherDesk::Words(desk) => desk.hang(text),
            EitherDesk::Numbers(desk) => desk.hang(text),
        }
    }

    /// Shows the plan: writes its text to the front of `out`, and gives how many bytes it has.
    pub fn show(&mut self, out: &mut [u8]) -> Result<usize, Fault>
        requires prepared { Prepared self.old }
        ensures answer { result ≡ show_answered (state_of self.old) (length out.old) }
        ensures text { out.new ≡ shown_over result (text_in (state_of self.old)) out.old }
        ensures same { state_of self.new ≡ state_of self.old }
        ensures prepared { Prepared self.new }
    {
        match self {
            EitherDesk::Words(desk) => desk.show(out),
            EitherDesk::Numbers(desk) => desk.show(out),
        }
    }
}
