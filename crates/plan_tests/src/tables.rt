//! A sound plan, and the same plan with one thing wrong.
use label::word::WordLabel;
use plan::check::is_sound;
use plan::strike::strike;
use plan::tables::{Atom, Cell, Census, FreeLink, Plan};
use std::test::Fail;
use text::packed::Name;

/// What is wrong with a plan.
#[derive(Clone, Copy)]
enum Wrong {
    Nothing,
    Count,
    Root,
    Ring,
    Set,
    Label,
    Home,
    Arity,
    Link,
    OneEnd,
    LowerName,
    SameName,
    Register,
    Census,
}

/// Whether a plan is sound, with one thing wrong or none: an atom on the root, one in a cell inside a cell, one in the outer cell;
/// a link between two ports, one from a port to an open name, one between two open names.
fn sound(wrong: Wrong) -> bool {
    let mut atoms = [
        Atom {
            label: WordLabel::new(b"a"),
            cell: 0,
            arity: 2,
            links: [7, 8000, 0, 0, 0, 0, 0, 0],
        },
        Atom {
            label: WordLabel::new(b"b"),
            cell: 1,
            arity: 1,
            links: [7, 9, 9, 9, 9, 9, 9, 9],
        },
        Atom {
            label: WordLabel::new(b"b"),
            cell: 2,
            arity: 0,
            links: [7; 8],
        },
    ];
    let mut cells = [
        Cell {
            parent: None,
            set: 1,
        },
        Cell {
            parent: Some(2),
            set: 15,
        },
        Cell {
            parent: Some(0),
            set: 0,
        },
    ];
    let mut free = [
        FreeLink {
            name: Name::new(b"B"),
            link: 8000,
        },
        FreeLink {
            name: Name::new(b"C"),
            link: 5,
        },
        FreeLink {
            name: Name::new(b"D_9"),
            link: 5,
        },
    ];
    let mut register = [
        Census {
            label: WordLabel::new(b"a"),
            atoms: 1,
        },
        Census {
            label: WordLabel::new(b"b"),
            atoms: 2,
        },
    ];
    let mut atom_count = 3;
    match wrong {
        Wrong::Nothing => {}
        Wrong::Count => atom_count = 4,
        Wrong::Root => cells[0].set = 2,
        Wrong::Ring => cells[2].parent = Some(1),
        Wrong::Set => cells[2].set = 16,
        Wrong::Label => atoms[2].label = WordLabel(5),
        Wrong::Home => atoms[2].cell = 3,
        Wrong::Arity => atoms[2].arity = 9,
        Wrong::Link => free[0].link = 8256,
        Wrong::OneEnd => atoms[1].arity = 0,
        Wrong::LowerName => free[1].name = Name::new(b"_1"),
        Wrong::SameName => free[2].name = Name::new(b"C"),
        Wrong::Register => register[0].label = WordLabel::new(b"c"),
        Wrong::Census => register[1].atoms = 1,
    }
    let plan = Plan {
        atoms: &mut atoms,
        atom_count,
        cells: &mut cells,
        cell_count: 3,
        free: &mut free,
        free_count: 3,
        register: &mut register,
        label_count: 2,
    };
    is_sound::<WordLabel>(&plan)
}

#[test]
fn one_thing_wrong(rt: HostRuntime) {
    assert!(rt; sound(Wrong::Nothing));
    assert!(rt; !sound(Wrong::Count));
    assert!(rt; !sound(Wrong::Root));
    assert!(rt; !sound(Wrong::Ring));
    assert!(rt; !sound(Wrong::Set));
    assert!(rt; !sound(Wrong::Label));
    assert!(rt; !sound(Wrong::Home));
    assert!(rt; !sound(Wrong::Arity));
    assert!(rt; !sound(Wrong::Link));
    assert!(rt; !sound(Wrong::OneEnd));
    assert!(rt; !sound(Wrong::LowerName));
    assert!(rt; !sound(Wrong::SameName));
    assert!(rt; !sound(Wrong::Register));
    assert!(rt; !sound(Wrong::Census));
}

#[test]
fn struck(rt: HostRuntime) -> Result<(), Fail> {
    let mut atoms: [Atom<WordLabel>; 1] = [Atom {
        label: WordLabel(0),
        cell: 9,
        arity: 9,
        links: [0; 8],
    }];
    let mut cells = [Cell {
        parent: Some(7),
        set: 99,
    }];
    let mut free: [FreeLink; 0] = [];
    let mut register: [Census<WordLabel>; 0] = [];
    let mut plan = Plan {
        atoms: &mut atoms,
        atom_count: 70,
        cells: &mut cells,
        cell_count: 0,
        free: &mut free,
        free_count: 5,
        register: &mut register,
        label_count: 5,
    };
    assert!(rt; !is_sound::<WordLabel>(&plan));
    strike(&mut plan)?;
    assert!(rt; is_sound::<WordLabel>(&plan));
    assert_eq!(rt; plan.cell_count, 1);
    assert_eq!(rt; plan.atom_count, 0);
    Ok(())
}
