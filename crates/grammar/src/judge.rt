//! The verdict on one token.
ghost use Rattle.std.specs.Prelude.{◌≡◌, List};
ghost use Rattle.grammar.specs.declared.stand.Standing.{Standing};
ghost use Rattle.grammar.specs.Seen.{Seen, seen, word, number, name as named, open_brace, close_brace, at_sign};
ghost use Rattle.grammar.specs.State.{state_of, times as standings};
ghost use Rattle.grammar.specs.Tests.{stood, set_of};
ghost use Rattle.grammar.specs.Reading.{judged, label_answer};

use crate::event::Event;
use crate::limits::CONNECTOR_LIMIT;
use crate::sign::Sign;
use crate::stand::{Phase, Stand};
use fault::Refusal;
use label::form::Form;
use label::kind::Label;
use text::limits::{DEPTH_LIMIT, PORT_LIMIT, SET_LIMIT};
use text::number::value_up_to;
use text::packed::Name;

/// The event of a label's token.
fn label_event<L: Label>(form: Form, bytes: &[u8]) -> Result<Option<Event<L>>, Refusal>
    ensures { result ≡ label_answer (L.kind.read form bytes.now) }
{
    let label = L::read(form, bytes).ok_or(Refusal::ForeignLabel)?;
    Ok(Some(Event::Label(label)))
}

/// A word in its place.
fn judge_word<L: Label>(stand: &Stand, bytes: &[u8]) -> Result<Option<Event<L>>, Refusal>
    ensures { (ns : List Standing) → result ≡ judged L.kind (state_of stand.now ns) (word bytes.now) }
{
    match stand.phase {
        Phase::Start | Phase::Item => label_event(Form::Word, bytes),
        _ => Err(Refusal::Unexpected),
    }
}

/// A line name in its place, that stood some times before.
fn judge_name<L: Label>(stand: &Stand, name: Name, times: u8) -> Result<Option<Event<L>>, Refusal>
    ensures { (ns : List Standing) → times ≡ standings name ns → result ≡ judged L.kind (state_of stand.now ns) (named name) }
{
    match stand.phase {
        Phase::Ports(n) if n >= PORT_LIMIT => Err(Refusal::NinthPort),
        Phase::Ports(_) | Phase::Second | Phase::Start | Phase::Item if times >= 2 => Err(
            Refusal::HangName,
        ),
        Phase::Ports(_) => Ok(Some(Event::Port(name))),
        Phase::Second => Ok(Some(Event::Second(name))),
        Phase::Start | Phase::Item if stand.connectors >= CONNECTOR_LIMIT => Err(
            Refusal::TooManyItems,
        ),
        Phase::Start | Phase::Item => Ok(Some(Event::First(name))),
        _ => Err(Refusal::Unexpected),
    }
}

/// An opening brace in its place.
#[tactic(auto, using(crate::proofs::Cells::length_cells))]
fn judge_open<L: Label>(stand: &Stand) -> Result<Option<Event<L>>, Refusal>
    ensures { (ns : List Standing) → result ≡ judged L.kind (state_of stand.now ns) open_brace }
{
    match stand.phase {
        Phase::Start | Phase::Item if stand.depth >= DEPTH_LIMIT => Err(Refusal::TooDeep),
        Phase::Start | Phase::Item => Ok(Some(Event::Enter)),
        _ => Err(Refusal::Unexpected),
    }
}

/// A closing brace in its place.
#[tactic(auto, using(crate::proofs::Cells::inside_some, crate::proofs::Cells::inside_none))]
fn judge_close<L: Label>(stand: &Stand) -> Result<Option<Event<L>>, Refusal>
    ensures { (ns : List Standing) → result ≡ judged L.kind (state_of stand.now ns) close_brace }
{
    match stand.phase {
        Phase::Start | Phase::Label | Phase::After if stand.depth > 0 => Ok(Some(Event::Leave)),
        _ => Err(Refusal::Unexpected),
    }
}

/// An `@` in its place.
#[tactic(auto, using(crate::proofs::Cells::set_some, crate::proofs::Cells::set_none))]
fn judge_at<L: Label>(stand: &Stand) -> Result<Option<Event<L>>, Refusal>
    ensures { (ns : List Standing) → result ≡ judged L.kind (state_of stand.now ns) at_sign }
{
    match stand.phase {
        Phase::Start | Phase::Item if stand.depth == 0 || stand.sets[stand.depth] => Err(
            Refusal::MisplacedSet,
        ),
        Phase::Start | Phase::Item => Ok(None),
        _ => Err(Refusal::Unexpected),
    }
}

/// The set that a number means.
fn set_number(bytes: &[u8]) -> Option<u8>
    ensures { result ≡ set_of bytes.now }
{
    match bytes {
        [] | [b'-', ..] => None,
        _ => {
            let k = value_up_to(u32::from(SET_LIMIT) + 1, bytes);
            // Proved to fit, so no `try_from`, which could fail.
            (1..=u32::from(SET_LIMIT)).contains(&k).then_some(k as u8)
        }
    }
}

/// A number in its place: a set, or a label.
fn judge_number<L: Label>(stand: &Stand, bytes: &[u8]) -> Result<Option<Event<L>>, Refusal>
    ensures { (ns : List Standing) → result ≡ judged L.kind (state_of stand.now ns) (number bytes.now) }
{
    match stand.phase {
        Phase::Set => {
            let set = set_number(bytes).ok_or(Refusal::SetNumber)?;
            Ok(Some(Event::Set(set)))
        }
        Phase::Start | Phase::Item => label_event(Form::Number, bytes),
        _ => Err(Refusal::Unexpected),
    }
}

/// The verdict on a token: what it gives, or the lowest number that is at fault there. `times` says how often
/// it stood before, if it is a name.
pub fn judge<L: Label>(
    stand: &Stand,
    sign: Sign<'_>,
    times: u8,
) -> Result<Option<Event<L>>, Refusal>
    ensures { (ns : List Standing) → times ≡ stood (state_of stand.now ns) (seen sign.entry) → result ≡ judged L.kind (state_of stand.now ns) (seen sign.entry) }
{
    match (sign, stand.phase) {
        (Sign::Word(bytes), _) => judge_word(stand, bytes),
        (Sign::Number(bytes), _) => judge_number(stand, bytes),
        (Sign::Name(name), _) => judge_name(stand, name, times),
        (Sign::OpenBrace, _) => judge_open(stand),
        (Sign::CloseBrace, _) => judge_close(stand),
        (Sign::At, _) => judge_at(stand),
        (Sign::Comma, Phase::Label | Phase::Port(_) | Phase::After) => Ok(None),
        (Sign::Open, Phase::Label) => Ok(None),
        (Sign::Close, Phase::Port(_)) => Ok(None),
        (Sign::Equal, Phase::First) => Ok(None),
        _ => Err(Refusal::Unexpected),
    }
}
