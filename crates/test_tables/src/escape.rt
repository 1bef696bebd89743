// Texts with escapes, and copies of them.

use std::alloc::{AllocError, Global};

/// How far an escape has been read.
#[derive(Clone, Copy)]
enum EscapeState {
    Plain,
    /// Behind a `\`.
    Escape,
    /// Behind `\x`.
    High,
    /// Behind `\x` and a digit of this value.
    Low(u8),
}

/// The value of a hexadecimal digit.
fn digit(byte: u8) -> Option<u8> {
    let value = char::from(byte).to_digit(16)?;
    u8::try_from(value).ok()
}

/// Appends a number in decimal digits.
fn push_number(alloc: Global, out: &mut Vec<u8>, number: u32) -> Result<(), AllocError> {
    let text = format!(in alloc; "{number}")?;
    out.extend_from_slice(text.as_bytes())?;
    Ok(())
}

/// What follows a `\`: `n`, `t`, `r`, `x` with two digits, `#` for the number of the copy from 0, `+` for the one from
/// 1, and else the byte itself.
fn push_escaped(
    alloc: Global,
    out: &mut Vec<u8>,
    byte: u8,
    copy: u32,
) -> Result<EscapeState, AllocError> {
    match byte {
        b'n' => out.push(b'\n')?,
        b't' => out.push(b'\t')?,
        b'r' => out.push(b'\r')?,
        b'x' => return Ok(EscapeState::High),
        b'#' => push_number(alloc, out, copy)?,
        b'+' => push_number(alloc, out, copy.saturating_add(1))?,
        other => out.push(other)?,
    }
    Ok(EscapeState::Plain)
}

/// Takes one byte more of a text.
fn push_next(
    alloc: Global,
    out: &mut Vec<u8>,
    state: EscapeState,
    byte: u8,
    copy: u32,
) -> Result<EscapeState, AllocError> {
    match (state, byte) {
        (EscapeState::Plain, b'\\') => return Ok(EscapeState::Escape),
        (EscapeState::Plain, _) => out.push(byte)?,
        (EscapeState::Escape, _) => return push_escaped(alloc, out, byte, copy),
        (EscapeState::High, _) => return Ok(EscapeState::Low(digit(byte).unwrap_or(0))),
        (EscapeState::Low(high), _) => out.push((high << 4) | digit(byte).unwrap_or(0))?,
    }
    Ok(EscapeState::Plain)
}

/// Appends the copy of this number of a text with escapes.
pub(crate) fn push_text(
    alloc: Global,
    out: &mut Vec<u8>,
    text: &str,
    copy: u32,
) -> Result<(), AllocError> {
    let mut state = EscapeState::Plain;
    for byte in text.bytes() {
        state = push_next(alloc, out, state, byte, copy)?;
    }
    Ok(())
}
