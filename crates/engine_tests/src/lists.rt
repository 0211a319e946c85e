//! Lists of calls, and what the plan shows after them.
use engine::{hang, show, strike};
use fault::Fault;
use label::word::WordLabel;
use plan::tables::{Atom, Cell, Census, FreeLink, Plan};
use text::packed::Name;

/// Whether a plan with four rows in each table shows a text, after a strike and then two texts.
fn shows(first: &[u8], second: &[u8], text: &[u8]) -> Result<bool, Fault> {
    let mut atoms = [Atom {
        label: WordLabel(0),
        cell: 9,
        arity: 9,
        links: [9999; 8],
    }; 4];
    let mut cells = [Cell {
        parent: Some(9),
        set: 99,
    }; 4];
    let mut free = [FreeLink {
        name: Name { packed: 9 },
        link: 9999,
    }; 4];
    let mut register = [Census {
        label: WordLabel(0),
        atoms: 9,
    }; 4];
    let mut plan = Plan {
        atoms: &mut atoms,
        atom_count: 9,
        cells: &mut cells,
        cell_count: 9,
        free: &mut free,
        free_count: 9,
        register: &mut register,
        label_count: 9,
    };
    strike(&mut plan)?;
    hang(&mut plan, first)?;
    hang(&mut plan, second)?;
    let mut out = [b'#'; 32];
    let length = show(&plan, &mut out)?;
    let untouched = |rest: &[u8]| rest.iter().all(|byte| *byte == b'#');
    Ok(length == text.len() && out.strip_prefix(text).is_some_and(untouched))
}

#[test]
fn nothing_hung(rt: HostRuntime) {
    assert_eq!(rt; shows(b"", b"", b"").ok(), Some(true));
}

#[test]
fn open_names(rt: HostRuntime) {
    assert_eq!(rt; shows(b"a(X)", b"b(X)", b"a(_0),b(_0)").ok(), Some(true));
    assert_eq!(rt;
        shows(b"a(X),b(X)", b"c(X)", b"a(_0),b(_0),c(X)").ok(),
        Some(true)
    );
}

#[test]
fn connectors(rt: HostRuntime) {
    assert_eq!(rt; shows(b"X=Y", b"", b"X=Y").ok(), Some(true));
    assert_eq!(rt; shows(b"X=Y", b"Y=X", b"").ok(), Some(true));
    assert_eq!(rt; shows(b"X=X", b"", b"").ok(), Some(true));
    assert_eq!(rt;
        shows(b"a(_p),_p=_q,_q=_r,b(_r)", b"", b"a(_0),b(_0)").ok(),
        Some(true)
    );
}

#[test]
fn cells(rt: HostRuntime) {
    assert_eq!(rt;
        shows(b"a(A,B),{@3,b(_x,_x)},A=C", b"", b"a(C,B),{@3,b(_0,_0)}").ok(),
        Some(true)
    );
}
