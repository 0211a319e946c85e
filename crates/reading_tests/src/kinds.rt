//! Label kinds, and one that takes one token alone.
use crate::cases::{holds, refused, sheet};
use crate::zeros::Zeros;
use label::form::Form;
use label::kind::Label;
use label::word::WordLabel;
use label::word_or_number::WordOrNumber;
use std::cmp::Ordering;
use std::process::Abort;
use std::test::Fail;

#[test]
fn no_token(rt: HostRuntime) -> Result<(), Fail> {
    holds::<Zeros>(&rt, b"{X=Y},Y=X", sheet(0, 1, 2, 0))?;
    holds::<Zeros>(&rt, b"0", sheet(1, 0, 0, 0))?;
    refused::<Zeros>(&rt, b"a", 4, 0)?;
    refused::<Zeros>(&rt, b"{7}", 4, 1)
}

/// A label is written as a token of some class.
fn written<L: Label>(
    rt: &impl Abort,
    form: Form,
    token: &[u8],
    class: Form,
    expected: &[u8],
) -> Result<(), Fail> {
    let Some(label) = L::read(form, token) else {
        return Err(Fail::new("no label"));
    };
    let Some(spelled) = label.token() else {
        return Err(Fail::new("no token"));
    };
    assert_eq!(rt; spelled.form, class);
    assert_eq!(rt; spelled.bytes.as_slice(), expected);
    Ok(())
}

#[test]
fn written_back(rt: HostRuntime) -> Result<(), Fail> {
    written::<WordLabel>(&rt, Form::Word, b"abcdefgh", Form::Word, b"abcdefgh")?;
    written::<WordOrNumber>(&rt, Form::Word, b"zZ_9", Form::Word, b"zZ_9")?;
    written::<WordOrNumber>(&rt, Form::Number, b"007", Form::Number, b"7")?;
    written::<WordOrNumber>(&rt, Form::Number, b"-0", Form::Number, b"0")?;
    written::<WordOrNumber>(&rt, Form::Number, b"-00012", Form::Number, b"-12")?;
    written::<WordOrNumber>(
        &rt,
        Form::Number,
        b"-2147483648",
        Form::Number,
        b"-2147483648",
    )?;
    written::<WordOrNumber>(
        &rt,
        Form::Number,
        b"2147483647",
        Form::Number,
        b"2147483647",
    )
}

/// The first label is lower than the second, and not the other way round.
fn lower<L: Label>(rt: &impl Abort, a: Option<L>, b: Option<L>) -> Result<(), Fail> {
    let (Some(a), Some(b)) = (a, b) else {
        return Err(Fail::new("no label"));
    };
    assert_eq!(rt; a.compare(b), Ordering::Less);
    assert_eq!(rt; b.compare(a), Ordering::Greater);
    assert_eq!(rt; a.compare(a), Ordering::Equal);
    Ok(())
}

#[test]
fn ordered(rt: HostRuntime) -> Result<(), Fail> {
    lower(
        &rt,
        WordOrNumber::read(Form::Number, b"7"),
        WordOrNumber::read(Form::Word, b"a"),
    )?;
    lower(
        &rt,
        WordOrNumber::read(Form::Number, b"-8"),
        WordOrNumber::read(Form::Number, b"-7"),
    )?;
    lower(
        &rt,
        WordOrNumber::read(Form::Number, b"-1"),
        WordOrNumber::read(Form::Number, b"0"),
    )?;
    lower(
        &rt,
        WordOrNumber::read(Form::Word, b"a"),
        WordOrNumber::read(Form::Word, b"aA"),
    )?;
    lower(
        &rt,
        WordLabel::read(Form::Word, b"a9"),
        WordLabel::read(Form::Word, b"aA"),
    )?;
    assert!(rt; WordLabel::read(Form::Word, b"A").is_none());
    assert!(rt; WordLabel::read(Form::Word, b"a!").is_none());
    assert!(rt; WordOrNumber::read(Form::Number, b"-").is_none());
    assert!(rt; WordLabel(5).admit().is_none());
    Ok(())
}
