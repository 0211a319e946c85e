//! Texts at the limits.
use crate::cases::{holds, refused, sheet};
use label::word::WordLabel;
use std::alloc::{AllocError, Global};
use std::iter;
use std::test::Fail;

/// Some bytes, so many blanks, and some bytes more.
fn spaced(heap: Global, before: &[u8], blanks: usize, after: &[u8]) -> Result<Vec<u8>, AllocError> {
    let mut text = Vec::new(heap);
    text.extend_from_slice(before)?;
    text.extend(iter::repeat_n(b' ', blanks))?;
    text.extend_from_slice(after)?;
    Ok(text)
}

/// So many connectors, each of a name of its own, eight bytes with its comma, and some text more.
fn connectors(heap: Global, count: u8, after: &str) -> Result<String, AllocError> {
    let mut text = String::new(heap);
    for i in 0..count {
        write!(text, "N{i:02}=N{i:02},")?;
    }
    text.push_str(after)?;
    Ok(text)
}

#[test]
fn lengths(rt: HostRuntime) -> Result<(), Fail> {
    holds::<WordLabel>(
        &rt,
        &spaced(rt.alloc(), b"a", 65534, b"")?,
        sheet(1, 0, 0, 0),
    )?;
    refused::<WordLabel>(&rt, &spaced(rt.alloc(), b"a", 65535, b"")?, 1, 0)?;
    refused::<WordLabel>(&rt, &spaced(rt.alloc(), b";", 65535, b"")?, 1, 0)
}

#[test]
fn last_places(rt: HostRuntime) -> Result<(), Fail> {
    refused::<WordLabel>(&rt, &spaced(rt.alloc(), b"", 65534, b";")?, 2, 65534)?;
    refused::<WordLabel>(
        &rt,
        &spaced(rt.alloc(), b"", 65526, b"abcdefghi")?,
        3,
        65526,
    )?;
    refused::<WordLabel>(&rt, &spaced(rt.alloc(), b"a,", 65532, b"7")?, 4, 65534)?;
    refused::<WordLabel>(&rt, &spaced(rt.alloc(), b"a,", 65533, b"")?, 5, 65535)?;
    refused::<WordLabel>(&rt, &spaced(rt.alloc(), b"a", 65533, b")")?, 5, 65534)?;
    refused::<WordLabel>(&rt, &spaced(rt.alloc(), b"a,", 65532, b"@")?, 11, 65534)?;
    refused::<WordLabel>(&rt, &spaced(rt.alloc(), b"{@", 65532, b"0")?, 14, 65534)
}

#[test]
fn last_names(rt: HostRuntime) -> Result<(), Fail> {
    refused::<WordLabel>(
        &rt,
        &spaced(rt.alloc(), b"{{{{{{{{{{{{{{{{", 65518, b"{")?,
        6,
        65534,
    )?;
    refused::<WordLabel>(
        &rt,
        &spaced(rt.alloc(), b"a(A,B,C,D,E,F,G,H,", 65516, b"I")?,
        7,
        65534,
    )?;
    refused::<WordLabel>(&rt, &spaced(rt.alloc(), b"a(A,A,", 65528, b"A")?, 8, 65534)?;
    refused::<WordLabel>(&rt, &spaced(rt.alloc(), b"a(", 65531, b"_)")?, 8, 65533)
}

#[test]
fn many_connectors(rt: HostRuntime) -> Result<(), Fail> {
    holds::<WordLabel>(
        &rt,
        connectors(rt.alloc(), 64, "a")?.as_bytes(),
        sheet(1, 0, 64, 0),
    )?;
    refused::<WordLabel>(&rt, connectors(rt.alloc(), 64, "X=Y")?.as_bytes(), 12, 512)?;
    refused::<WordLabel>(&rt, connectors(rt.alloc(), 64, "X)")?.as_bytes(), 12, 512)?;
    refused::<WordLabel>(&rt, connectors(rt.alloc(), 64, "N00=Y")?.as_bytes(), 8, 512)?;
    holds::<WordLabel>(
        &rt,
        connectors(rt.alloc(), 63, "X=Y")?.as_bytes(),
        sheet(0, 0, 64, 2),
    )
}
