//! The names that stood in a text.
ghost use Rattle.std.specs.Prelude.{◌≡◌, ◌+◌, ◌<◌, ◌≤◌, List, [], length};
ghost use Rattle.std.specs.Option.{option_map};
ghost use Rattle.std.specs.List.{find};
ghost use Rattle.grammar.specs.State.{times, noted};
ghost use Rattle.grammar.specs.Names.{names_of, found};
ghost use Rattle.grammar.specs.Reading.{lone, first_lone};
ghost use Rattle.grammar.specs.Sheets.{once_in};
ghost use Rattle.grammar.specs.Tests.{text_limit};

use crate::stand::Standing;
use crate::table::Names;
use arrayvec::ArrayVec;
use text::packed::Name;

/// Whether a name begins with `_` and stood once.
fn is_lone(standing: &Standing) -> bool
    ensures { result ≡ lone standing.now }
{
    standing.name.is_underscored() && !standing.twice
}

/// The place of the first row whose name begins with `_` and stood once.
fn lone_place(standings: &[Standing]) -> Option<usize>
    ensures { result ≡ option_map (λ s. s.place) (find lone standings.now) }
{
    standings
        .iter()
        .find(|standing| is_lone(standing))
        .map(|standing| standing.place)
}

impl Names {
    /// No name yet.
    pub fn new() -> Names
        ensures { names_of result ≡ [] }
    {
        Names {
            rows: ArrayVec::new(),
        }
    }

    /// The names, in the order of their first standing.
    pub fn as_slice(&self) -> &[Standing]
        ensures { result.now ≡ names_of self.now }
    {
        self.rows.as_slice()
    }

    /// The row of a name, if it stood.
    pub fn find(&self, name: Name) -> Option<usize>
        ensures { result ≡ found name (names_of self.now) }
    {
        self.as_slice()
            .iter()
            .position(|standing| standing.name == name)
    }

    /// How often a name stood, by its row.
    pub fn times_at(&self, row: Option<usize>) -> u8
        ensures { (name : Name) → row ≡ found name (names_of self.now) → result ≡ times name (names_of self.now) }
    {
        match row {
            Some(row) => match self.as_slice().get(row) {
                Some(standing) if standing.twice => 2,
                Some(_) => 1,
                None => 0,
            },
            None => 0,
        }
    }

    /// One more standing of a name at a place, by its row.
    pub fn note(&mut self, name: Name, row: Option<usize>, place: usize)
        requires at { row ≡ found name (names_of self.old) }
        requires room { length (names_of self.old) < text_limit }
        ensures is { names_of self.new ≡ noted name place (names_of self.old) }
        ensures few { length (names_of self.new) ≤ length (names_of self.old) + 1 }
    {
        match row {
            Some(row) => self.rows[row].twice = true,
            None => self.rows.push(Standing {
                name,
                twice: false,
                place,
            }),
        }
    }

    /// Where the first `_` name that stood once stood.
    #[tactic(auto, using(crate::proofs::Looking::lone_find))]
    pub fn first_lone(&self) -> Option<usize>
        ensures { result ≡ first_lone (names_of self.now) }
    {
        lone_place(self.as_slice())
    }

    /// How many names stood once.
    pub fn once(&self) -> usize
        ensures { result ≡ once_in (names_of self.now) }
    {
        self.as_slice()
            .iter()
            .filter(|standing| !standing.twice)
            .count()
    }
}
