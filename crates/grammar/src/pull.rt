//! Reading a hang, event by event.
ghost use Rattle.std.specs.Prelude.{◌≡◌, ◌+◌, ◌<◌, ◌≤◌, List, length};
ghost use Rattle.grammar.specs.declared.stand.Standing.{Standing};
ghost use Rattle.grammar.specs.Seen.{seen};
ghost use Rattle.grammar.specs.State.{state_of, next_names};
ghost use Rattle.grammar.specs.Names.{names_of, Row};
ghost use Rattle.grammar.specs.Tests.{text_limit, stood};
ghost use Rattle.grammar.specs.Reading.{complete, ended};
ghost use Rattle.grammar.specs.Pull.{Judged, left, limited, Begun, Taken, given, Goes, ComesTo, answered};

use crate::advance::advance;
use crate::event::Event;
use crate::judge::judge;
use crate::limits::{DEPTHS, TEXT_LIMIT};
use crate::reader::Reader;
use crate::sign::Sign;
use crate::stand::{Phase, Stand};
use crate::table::Names;
use fault::{Fault, Refusal};
use label::kind::Label;
use text::lexer::next_token;
use text::token::Found;

/// Refuses a text that is too long.
pub fn limit_length(text: &[u8]) -> Result<(), Fault>
    ensures { result ≡ limited text.now }
{
    if text.len() > TEXT_LIMIT {
        return Err(Refusal::TextTooLong.at(0));
    }
    Ok(())
}

/// The row of a token's name, if it has one that stood.
fn find(names: &Names, sign: Sign<'_>) -> Option<usize>
    ensures { Row (seen sign.entry) (names_of names.now) result }
{
    match sign {
        Sign::Name(name) => names.find(name),
        _ => None,
    }
}

/// How often a token's name stood, by its row.
fn times(stand: &Stand, names: &Names, sign: Sign<'_>, row: Option<usize>) -> u8
    requires { Row (seen sign) (names_of names.now) row }
    ensures { result ≡ stood (state_of stand.now (names_of names.now)) (seen sign.entry) }
{
    match sign {
        Sign::Name(_) => names.times_at(row),
        _ => 0,
    }
}

/// Notes the standing of a token's name.
fn note(names: &mut Names, sign: Sign<'_>, row: Option<usize>, place: usize)
    requires at { Row (seen sign) (names_of names.old) row }
    requires room { length (names_of names.old) < text_limit }
    ensures is { names_of names.new ≡ next_names (names_of names.old) (seen sign.entry) place }
    ensures few { length (names_of names.new) ≤ length (names_of names.old) + 1 }
{
    if let Sign::Name(name) = sign {
        names.note(name, row, place);
    }
}

/// The verdict on a token, with a refusal at the token's place.
fn verdict<L: Label>(
    stand: &Stand,
    sign: Sign<'_>,
    times: u8,
    place: usize,
) -> Result<Option<Event<L>>, Fault>
    ensures { (ns : List Standing) → times ≡ stood (state_of stand.now ns) (seen sign.entry) → Judged L.kind (state_of stand.now ns) (seen sign.entry) place result }
{
    judge(stand, sign, times).map_err(|refusal| refusal.at(place))
}

/// Whether a hang may end here.
#[tactic(auto, using(crate::proofs::Cells::inside_is))]
fn may_end(stand: &Stand) -> bool
    ensures { (ns : List Standing) → result ≡ complete (state_of stand.now ns) }
{
    match stand.phase {
        Phase::Start | Phase::Label | Phase::After => stand.depth == 0,
        _ => false,
    }
}

/// The answer at the end of a text whose length is a place.
fn finish<L: Label>(stand: &Stand, names: &Names, place: usize) -> Result<Option<Event<L>>, Fault>
    ensures is { answered result ≡ ended (state_of stand.now (names_of names.now)) place }
{
    if !may_end(stand) {
        return Err(Refusal::Unexpected.at(place));
    }
    match names.first_lone() {
        None => Ok(None),
        Some(place) => Err(Refusal::HangName.at(place)),
    }
}

impl<'t> Reader<'t> {
    /// A reader at the start of a text, whose first byte is at the place `start`.
    #[tactic(auto, unfolding(crate::specs::State::open_cells))]
    pub fn new(text: &'t [u8], start: u32) -> Reader<'t>
        requires { length text.now ≤ text_limit }
        ensures { Begun start text.now result }
    {
        let stand = Stand {
            phase: Phase::Start,
            depth: 0,
            sets: [false; DEPTHS],
            connectors: 0,
        };
        Reader {
            rest: text,
            // Proved to fit: there is no `From` of a `u32` for `usize`.
            at: start as usize,
            stand,
            names: Names::new(),
        }
    }

    /// Goes on past a token that was found next, unless it is refused.
    fn take<L: Label>(&mut self, found: Found<'t>) -> Result<Option<Event<L>>, Fault>
        requires on { found.next + length found.rest.now ≡ self.old.at + length self.old.rest.now }
        requires ahead { length found.rest.now < length self.old.rest.now }
        ensures { Taken L.kind self.old found.entry result self.new }
    {
        let sign = Sign::from(found.token);
        let row = find(&self.names, sign);
        let times = times(&self.stand, &self.names, sign, row);
        let event = verdict(&self.stand, sign, times, found.place)?;
        advance(&mut self.stand, sign);
        note(&mut self.names, sign, row, found.place);
        self.rest = found.rest;
        self.at = found.next;
        Ok(event)
    }

    /// The next event, or none at the text's end.
    pub fn next<L: Label>(&mut self) -> Result<Option<Event<L>>, Fault>
        ensures is { given L.kind result self.new ≡ left L.kind self.old }
        ensures goes { Goes L.kind result self.old self.new }
        ensures comes { ComesTo result self.old self.new }
    {
        'tokens: loop {
            match next_token(self.rest, self.at)? {
                None => {
                    let place = self.at + self.rest.len();
                    return finish(&self.stand, &self.names, place);
                }
                Some(found) => {
                    let event = self.take(found)?;
                    if let Some(event) = event {
                        return Ok(Some(event));
                    }
                }
            }
        }
    }
}
