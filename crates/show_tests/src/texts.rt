//! The texts of plans.
use fault::Fault;
use label::word::WordLabel;
use plan::tables::{Atom, Cell, Census, FreeLink, Plan};
use show::show::show;
use text::packed::Name;

/// Whether a text stands at the front of a buffer, and only untouched bytes after it.
fn holds(out: &[u8], text: &[u8]) -> bool {
    out.strip_prefix(text)
        .is_some_and(|rest| rest.iter().all(|byte| *byte == b'#'))
}

/// Shows a plan into a buffer: an atom on the root, one in a cell inside a cell, one in the outer cell;
/// a link between two ports, one from a port to an open name, one between two open names, and a loop.
fn shown(root: u8, out: &mut [u8]) -> Result<usize, Fault> {
    let mut atoms = [
        Atom {
            label: WordLabel::new(b"a"),
            cell: 0,
            arity: 4,
            links: [7, 8000, 3, 3, 0, 0, 0, 0],
        },
        Atom {
            label: WordLabel::new(b"b"),
            cell: 1,
            arity: 1,
            links: [7, 9, 9, 9, 9, 9, 9, 9],
        },
        Atom {
            label: WordLabel::new(b"b"),
            cell: 2,
            arity: 0,
            links: [7; 8],
        },
    ];
    let mut cells = [
        Cell {
            parent: None,
            set: root,
        },
        Cell {
            parent: Some(2),
            set: 15,
        },
        Cell {
            parent: Some(0),
            set: 0,
        },
    ];
    let mut free = [
        FreeLink {
            name: Name::new(b"B"),
            link: 8000,
        },
        FreeLink {
            name: Name::new(b"C"),
            link: 5,
        },
        FreeLink {
            name: Name::new(b"D_9"),
            link: 5,
        },
    ];
    let mut register = [
        Census {
            label: WordLabel::new(b"a"),
            atoms: 1,
        },
        Census {
            label: WordLabel::new(b"b"),
            atoms: 2,
        },
    ];
    let plan = Plan {
        atoms: &mut atoms,
        atom_count: 3,
        cells: &mut cells,
        cell_count: 3,
        free: &mut free,
        free_count: 3,
        register: &mut register,
        label_count: 2,
    };
    show(&plan, out)
}

#[test]
fn a_plan(rt: HostRuntime) {
    let mut long = [b'#'; 64];
    assert_eq!(rt; shown(1, &mut long).ok(), Some(35));
    assert!(rt; holds(&long, b"a(_0,B,_1,_1),{b,{@15,b(_0)}},C=D_9"));
}

#[test]
fn a_buffer_just_long_enough(rt: HostRuntime) {
    let mut exact = [b'#'; 35];
    assert_eq!(rt; shown(1, &mut exact).ok(), Some(35));
    assert!(rt; holds(&exact, b"a(_0,B,_1,_1),{b,{@15,b(_0)}},C=D_9"));
}

#[test]
fn refusals_leave_the_buffer(rt: HostRuntime) {
    let mut short = [b'#'; 34];
    assert_eq!(rt;
        shown(1, &mut short).map_err(|fault| fault.number()),
        Err(23)
    );
    assert!(rt; holds(&short, b""));
    assert_eq!(rt;
        shown(2, &mut short).map_err(|fault| fault.number()),
        Err(20)
    );
    assert!(rt; holds(&short, b""));
}
