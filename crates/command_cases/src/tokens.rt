// Cases of tokens and places.

ghost use Rattle.std.specs.Prelude.{◌≤◌, length};
ghost use Rattle.rt_ids.specs.declared.limits.TheConstants.{TEXT_BYTES};

use anyhow::{Context, Result, bail};
use rt_ids::limits::TEXT_BYTES;
use rt_lex::{Kind, Token, Tokens, place};
use std::alloc::Global;
use test_tables::Case;

/// Whether a token is just the word, the name or the sign that it is.
fn knows_itself(token: &Token<'_>) -> bool {
    let word = token.kind == Kind::Word;
    let name = token.kind == Kind::Name;
    let sign = token.kind == Kind::Sign;
    token.is_word(token.text) == word
        && token.is_name(token.text) == name
        && token.is_sign(token.text) == sign
        && !token.is_word(b"tas")
}

/// The value of a token, where it is a number within 32 bits.
fn value(token: &Token<'_>) -> Option<u32> {
    match token.kind {
        Kind::Num => token.value(),
        _ => None,
    }
}

/// Appends the line of a token: its offset, its kind, the value of a number, and its bytes.
fn push_token(alloc: Global, out: &mut Vec<u8>, token: &Token<'_>) -> Result<()> {
    let head = match (token.kind, value(token)) {
        (Kind::Num, Some(value)) => format!(in alloc; "{} Num {value} ", token.at)?,
        (Kind::Num, None) => format!(in alloc; "{} Num none ", token.at)?,
        (kind, _) => format!(in alloc; "{} {kind:?} ", token.at)?,
    };
    out.extend_from_slice(head.as_bytes())?;
    out.extend_from_slice(token.text)?;
    out.push(b'\n')?;
    Ok(())
}

/// The lines of the tokens of a text.
fn lines(alloc: Global, text: &[u8]) -> Result<Vec<u8>>
    requires { length text.now ≤ TEXT_BYTES }
{
    let mut out = Vec::new(alloc);
    for token in Tokens::of(text) {
        if !knows_itself(&token) {
            bail!("a token is not what it is");
        }
        push_token(alloc, &mut out, &token)?;
    }
    Ok(out)
}

/// Appends the place of an offset, where it is one of the text's.
fn push_place(out: &mut String, text: &[u8], at: u32) -> Result<()>
    requires { length text.now ≤ TEXT_BYTES }
{
    if at as usize > text.len() {
        bail!("an offset past the end");
    }
    let place = place(text, at);
    writeln!(out, "{at} at {}:{}", place.line, place.col)?;
    Ok(())
}

/// The lines of the places of offsets.
fn places(alloc: Global, text: &[u8], offsets: &str) -> Result<String>
    requires { length text.now ≤ TEXT_BYTES }
{
    let mut out = String::new(alloc);
    for word in offsets.split_whitespace() {
        push_place(&mut out, text, word.parse::<u32>()?)?;
    }
    Ok(out)
}

/// What is told of a case: whether its text has these tokens, and its offsets these places.
pub fn verdict(alloc: Global, case: &Case) -> Result<&'static str> {
    let text = case.bytes("text");
    if text.len() > TEXT_BYTES as usize {
        return Ok("the text is too long");
    }
    if lines(alloc, text)?.as_slice() != case.bytes("tokens") {
        return Ok("the tokens differ");
    }
    let offsets = case.text("offsets").context("no offsets")?;
    if places(alloc, text, offsets)?.as_bytes() != case.bytes("places") {
        return Ok("the places differ");
    }
    Ok("ok")
}
