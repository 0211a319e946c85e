//! Where a reading stands after one token more.
ghost use Rattle.std.specs.Prelude.{◌≡◌, ◌≤◌, false, ◌&&◌, []};
ghost use Rattle.grammar.specs.Seen.{seen};
ghost use Rattle.grammar.specs.State.{state_of, open_cells, next_phase, next_cells, next_connectors, after_name};
ghost use Rattle.grammar.specs.Tests.{is_name, ports_full, too_deep, ninth_port, crowded};
ghost use Rattle.grammar.specs.Advance.{Advanced};

use crate::limits::DEPTHS;
use crate::sign::Sign;
use crate::stand::{Phase, Stand};

/// What was read last, after a name.
fn after_name(phase: Phase) -> Phase
    requires { ports_full phase ≡ false }
    ensures { result ≡ after_name phase }
{
    match phase {
        Phase::Ports(n) => Phase::Port(n + 1),
        Phase::Second => Phase::After,
        _ => Phase::First,
    }
}

/// What was read last, after a token that is not at fault.
fn next_phase(phase: Phase, sign: Sign<'_>) -> Phase
    requires { is_name (seen sign) && ports_full phase ≡ false }
    ensures { result ≡ next_phase phase (seen sign.entry) }
{
    match sign {
        Sign::Word(_) => Phase::Label,
        Sign::Number(_) => match phase {
            Phase::Set => Phase::After,
            _ => Phase::Label,
        },
        Sign::Name(_) => after_name(phase),
        Sign::Comma => match phase {
            Phase::Port(n) => Phase::Ports(n),
            _ => Phase::Item,
        },
        Sign::Open => Phase::Ports(0),
        Sign::Close | Sign::CloseBrace | Sign::Other => Phase::After,
        Sign::OpenBrace => Phase::Start,
        Sign::Equal => Phase::Second,
        Sign::At => Phase::Set,
    }
}

/// How many connectors were begun, after a token that is not at fault.
fn next_connectors(stand: &Stand, sign: Sign<'_>) -> usize
    requires { crowded (state_of stand.now []) (seen sign) ≡ false }
    ensures is { result ≡ next_connectors stand.now.phase stand.now.connectors (seen sign.entry) }
    ensures few { result ≤ 64 }
{
    match (sign, stand.phase) {
        (Sign::Name(_), Phase::Start | Phase::Item) => stand.connectors + 1,
        _ => stand.connectors,
    }
}

/// How many cells are open, and which of them have their set, after a token that is not at fault.
#[tactic(auto, using(crate::proofs::Cells::cells_open, crate::proofs::Cells::cells_close, crate::proofs::Cells::cells_marked, crate::proofs::Cells::room_above))]
fn next_cells(stand: &Stand, sign: Sign<'_>) -> (usize, [bool; DEPTHS])
    requires { too_deep (state_of stand.now []) (seen sign) ≡ false }
    ensures is { open_cells result.0 result.1 ≡ next_cells (open_cells stand.now.depth stand.now.sets) (seen sign.entry) }
    ensures shallow { result.0 ≤ 16 }
{
    let depth = stand.depth;
    let mut sets = stand.sets;
    match sign {
        Sign::OpenBrace => {
            sets[depth + 1] = false;
            (depth + 1, sets)
        }
        Sign::CloseBrace => (depth.saturating_sub(1), sets),
        Sign::At => {
            sets[depth] = true;
            (depth, sets)
        }
        _ => (depth, sets),
    }
}

/// Goes on past a token that is not at fault.
pub fn advance(stand: &mut Stand, sign: Sign<'_>)
    requires shallow { too_deep (state_of stand.old []) (seen sign) ≡ false }
    requires ports { ninth_port (state_of stand.old []) (seen sign) ≡ false }
    requires few { crowded (state_of stand.old []) (seen sign) ≡ false }
    ensures { Advanced stand.old (seen sign.entry) stand.new }
{
    let phase = next_phase(stand.phase, sign);
    let connectors = next_connectors(stand, sign);
    let (depth, sets) = next_cells(stand, sign);
    *stand = Stand {
        phase,
        depth,
        sets,
        connectors,
    };
}
