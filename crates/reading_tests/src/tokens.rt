//! Tokens, and names as numbers.
use std::process::Abort;
use std::test::Fail;
use text::lexer::next_token;
use text::packed::packed;
use text::token::{Mark, Token};

/// The place after the first token of a text that begins at the place 100. The token is a mark.
fn after_mark(rt: &impl Abort, text: &[u8], mark: Mark) -> Result<usize, Fail> {
    assert!(rt; text.len() < 100);
    let Some(found) = next_token(text, 100)? else {
        return Err(Fail::new("no token"));
    };
    let Token::Mark(first) = found.token else {
        return Err(Fail::new("another token"));
    };
    assert_eq!(rt; first, mark);
    Ok(found.next)
}

#[test]
fn turns_and_colons(rt: HostRuntime) -> Result<(), Fail> {
    assert_eq!(rt; after_mark(&rt, b":-", Mark::Turn)?, 102);
    assert_eq!(rt; after_mark(&rt, b":-7", Mark::Turn)?, 102);
    assert_eq!(rt; after_mark(&rt, b": -7", Mark::Colon)?, 101);
    assert_eq!(rt; after_mark(&rt, b"::-", Mark::Colon)?, 101);
    assert_eq!(rt; after_mark(&rt, b"  :", Mark::Colon)?, 103);
    Ok(())
}

#[test]
fn lone_minus(rt: HostRuntime) -> Result<(), Fail> {
    let Err(fault) = next_token(b" - 7", 5) else {
        return Err(Fail::new("a token"));
    };
    assert_eq!(rt; (fault.number(), fault.place), (2, 6));
    Ok(())
}

#[test]
fn packing(rt: HostRuntime) {
    // 97 * 256^7, and 98 * 256^6 more
    assert_eq!(rt; packed(b"a"), 6989586621679009792);
    assert_eq!(rt; packed(b"ab"), 7017171169396654080);
    assert_eq!(rt; packed(b""), 0);
    assert!(rt; packed(b"a") < packed(b"a0"));
    assert!(rt; packed(b"a0") < packed(b"aZ"));
    assert!(rt; packed(b"aZ") < packed(b"a_"));
    assert!(rt; packed(b"a_") < packed(b"aa"));
}
