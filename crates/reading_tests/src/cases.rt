//! Short hangs.
use fault::Layer;
use grammar::read::read;
use grammar::sheet::Sheet;
use label::kind::Label;
use label::word::WordLabel;
use label::word_or_number::WordOrNumber;
use std::process::Abort;
use std::test::Fail;

/// A text is refused by a number at a place. Numbers to 4 are of the text, and the others of the grammar.
pub(crate) fn refused<L: Label>(
    rt: &impl Abort,
    text: &[u8],
    number: u8,
    place: usize,
) -> Result<(), Fail> {
    let Err(fault) = read::<L>(text) else {
        return Err(Fail::new("read without fault"));
    };
    let layer = if number <= 4 {
        Layer::Text
    } else {
        Layer::Grammar
    };
    assert_eq!(rt;
        (fault.number(), fault.layer(), fault.place),
        (number, layer, place)
    );
    Ok(())
}

/// So many atoms, cells, connectors and names that stand once.
pub(crate) fn sheet(atoms: usize, cells: usize, connectors: usize, once: usize) -> Sheet {
    Sheet {
        atoms,
        cells,
        connectors,
        once,
    }
}

/// What a text holds.
pub(crate) fn holds<L: Label>(rt: &impl Abort, text: &[u8], sheet: Sheet) -> Result<(), Fail> {
    assert_eq!(rt; read::<L>(text)?, sheet);
    Ok(())
}

#[test]
fn clean_sheets(rt: HostRuntime) -> Result<(), Fail> {
    holds::<WordLabel>(&rt, b"", sheet(0, 0, 0, 0))?;
    holds::<WordLabel>(&rt, b" \t\r\n", sheet(0, 0, 0, 0))?;
    holds::<WordLabel>(&rt, b"a", sheet(1, 0, 0, 0))?;
    holds::<WordLabel>(&rt, b"a(X),b(X)", sheet(2, 0, 0, 0))?;
    holds::<WordLabel>(&rt, b"a(X),b(Y)", sheet(2, 0, 0, 2))?;
    holds::<WordLabel>(&rt, b"{}", sheet(0, 1, 0, 0))?;
    holds::<WordLabel>(&rt, b"{@1},{@15,a,{b}}", sheet(2, 3, 0, 0))?;
    holds::<WordLabel>(&rt, b"{a,@7}", sheet(1, 1, 0, 0))?;
    holds::<WordLabel>(&rt, b"{@007}", sheet(0, 1, 0, 0))?;
    holds::<WordLabel>(&rt, b"X=Y", sheet(0, 0, 1, 2))?;
    holds::<WordLabel>(&rt, b"X=X", sheet(0, 0, 1, 0))?;
    holds::<WordLabel>(&rt, b"_=_", sheet(0, 0, 1, 0))?;
    holds::<WordLabel>(&rt, b"a(_1,_1)", sheet(1, 0, 0, 0))?;
    holds::<WordLabel>(&rt, b"abcdefgh(ABCDEFGH)", sheet(1, 0, 0, 1))
}

#[test]
fn ports_and_braces(rt: HostRuntime) -> Result<(), Fail> {
    holds::<WordLabel>(&rt, b"a(A,B,C,D,E,F,G,H)", sheet(1, 0, 0, 8))?;
    refused::<WordLabel>(&rt, b"a(A,B,C,D,E,F,G,H,I)", 7, 18)?;
    refused::<WordLabel>(&rt, b"a(A,B,C,D,E,F,G,H,7)", 5, 18)?;
    holds::<WordLabel>(&rt, b"{{{{{{{{{{{{{{{{}}}}}}}}}}}}}}}}", sheet(0, 16, 0, 0))?;
    refused::<WordLabel>(&rt, b"{{{{{{{{{{{{{{{{{}}}}}}}}}}}}}}}}}", 6, 16)?;
    refused::<WordLabel>(&rt, b"{{{{{{{{{{{{{{{{a{", 5, 17)
}

#[test]
fn texts(rt: HostRuntime) -> Result<(), Fail> {
    refused::<WordLabel>(&rt, b";", 2, 0)?;
    refused::<WordLabel>(&rt, b"a;", 2, 1)?;
    refused::<WordLabel>(&rt, b"-", 2, 0)?;
    refused::<WordLabel>(&rt, b"a,- 7", 2, 2)?;
    refused::<WordLabel>(&rt, b"abcdefghi", 3, 0)?;
    refused::<WordLabel>(&rt, b"a(ABCDEFGHI)", 3, 2)?;
    refused::<WordLabel>(&rt, b"7", 4, 0)?;
    refused::<WordLabel>(&rt, b"{a,7}", 4, 3)?;
    refused::<WordLabel>(&rt, b"7a", 4, 0)?;
    refused::<WordOrNumber>(&rt, b"7a", 5, 1)
}

#[test]
fn forms(rt: HostRuntime) -> Result<(), Fail> {
    refused::<WordLabel>(&rt, b"a()", 5, 2)?;
    refused::<WordLabel>(&rt, b"a,", 5, 2)?;
    refused::<WordLabel>(&rt, b"{a,}", 5, 3)?;
    refused::<WordLabel>(&rt, b"a,,b", 5, 2)?;
    refused::<WordLabel>(&rt, b",a", 5, 0)?;
    refused::<WordLabel>(&rt, b"}", 5, 0)?;
    refused::<WordLabel>(&rt, b"{", 5, 1)?;
    refused::<WordLabel>(&rt, b"a(X", 5, 3)?;
    refused::<WordLabel>(&rt, b"a(X,", 5, 4)?;
    refused::<WordLabel>(&rt, b"X", 5, 1)?;
    refused::<WordLabel>(&rt, b"X=", 5, 2)?;
    refused::<WordLabel>(&rt, b"X=a", 5, 2)?;
    refused::<WordLabel>(&rt, b"a(X)(Y)", 5, 4)?;
    refused::<WordLabel>(&rt, b"$p", 5, 0)?;
    refused::<WordLabel>(&rt, b"a:-b", 5, 1)?;
    refused::<WordLabel>(&rt, b"a.", 5, 1)
}

#[test]
fn names(rt: HostRuntime) -> Result<(), Fail> {
    refused::<WordLabel>(&rt, b"a(X),b(X),c(X)", 8, 12)?;
    refused::<WordLabel>(&rt, b"a(X,X,X)", 8, 6)?;
    refused::<WordLabel>(&rt, b"X=X,X=Y", 8, 4)?;
    refused::<WordLabel>(&rt, b"a(_)", 8, 2)?;
    refused::<WordLabel>(&rt, b"a(X,_a),b(_b)", 8, 4)?;
    refused::<WordLabel>(&rt, b"a(_),b(", 5, 7)?;
    refused::<WordLabel>(&rt, b"a(A,B,C,D,E,F,G,A,A)", 7, 18)?;
    refused::<WordLabel>(&rt, b"a abcdefghi", 3, 2)
}

#[test]
fn sets(rt: HostRuntime) -> Result<(), Fail> {
    refused::<WordLabel>(&rt, b"@1", 11, 0)?;
    refused::<WordLabel>(&rt, b"@", 11, 0)?;
    refused::<WordLabel>(&rt, b"a,@", 11, 2)?;
    refused::<WordLabel>(&rt, b"{@1,@2}", 11, 4)?;
    refused::<WordLabel>(&rt, b"{@1,{@2},@3}", 11, 9)?;
    refused::<WordLabel>(&rt, b"{@1,@", 11, 4)?;
    refused::<WordLabel>(&rt, b"{@0}", 14, 2)?;
    refused::<WordLabel>(&rt, b"{@-0}", 14, 2)?;
    refused::<WordLabel>(&rt, b"{@-1}", 14, 2)?;
    refused::<WordLabel>(&rt, b"{@16}", 14, 2)?;
    refused::<WordLabel>(&rt, b"{@}", 5, 2)?;
    refused::<WordLabel>(&rt, b"{@X}", 5, 2)?;
    refused::<WordLabel>(&rt, b"{@@}", 5, 2)?;
    refused::<WordLabel>(&rt, b"a(@)", 5, 2)?;
    refused::<WordLabel>(&rt, b"{a @1}", 5, 3)
}

#[test]
fn numbers(rt: HostRuntime) -> Result<(), Fail> {
    holds::<WordOrNumber>(&rt, b"7,007,-0,a(X)", sheet(4, 0, 0, 1))?;
    holds::<WordOrNumber>(
        &rt,
        b"2147483647,-2147483648,00000000002147483647",
        sheet(3, 0, 0, 0),
    )?;
    refused::<WordOrNumber>(&rt, b"2147483648", 4, 0)?;
    refused::<WordOrNumber>(&rt, b"a,-2147483649", 4, 2)?;
    refused::<WordOrNumber>(&rt, b"99999999999999999999999999", 4, 0)?;
    holds::<WordOrNumber>(&rt, b"7(X),{@7,7}", sheet(2, 1, 0, 1))
}
