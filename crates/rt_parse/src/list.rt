// Lists up to the sign that closes them.

ghost use Rattle.std.specs.Prelude.{◌≡◌, ◌<◌, ℕ, [], length, IfOk};
ghost use Rattle.rt_parse.specs.Inside.Reading.{Reader, GivesRead};
ghost use Rattle.rt_parse.specs.Inside.ReadingList.{comma_at, goes_past, items_at, adds_at};

use crate::stop::Stop;
use crate::tokens::{begins_sign, sign};
use rt_lex::Tokens;
use std::alloc::Global;

/// An item of a list.
pub(crate) trait ListItem: Sized {
    /// How it is read after so many others.
    ghost reads: { ℕ → Reader Self };

    /// Reads one, after so many others.
    fn read<'a>(
        alloc: Global,
        tokens: Tokens<'a>,
        before: usize,
    ) -> Result<(Self, Tokens<'a>), Stop>
        ensures given { GivesRead (λ x. x) result (reads before tokens.entry) }
        ensures shorter { IfOk result (λ x. length x.1 < length tokens.entry) };
}

/// A comma, or nothing in front of the sign that closes the list.
pub(crate) fn comma<'a>(tokens: Tokens<'a>, closing: &[u8]) -> Result<Tokens<'a>, Stop>
    ensures { GivesRead (λ x. x) result (comma_at closing.now tokens.entry) }
{
    if begins_sign(&tokens, closing) {
        Ok(tokens)
    } else {
        let (_, tokens) = sign(tokens, b",")?;
        Ok(tokens)
    }
}

/// Whether there is a token, and it is not this sign.
pub(crate) fn goes_past(tokens: &Tokens<'_>, sign: &[u8]) -> bool
    ensures { result ≡ goes_past sign.now tokens.now }
{
    match tokens.peek() {
        Some(token) => !token.is_sign(sign),
        None => false,
    }
}

/// A list up to the sign that closes it.
pub(crate) fn list<'a, T: ListItem + Drop>(
    alloc: Global,
    tokens: Tokens<'a>,
    closing: &[u8],
) -> Result<(Vec<T>, Tokens<'a>), Stop>
    ensures { GivesRead (λ x. (x.0.items, x.1)) result
        (items_at closing.now (adds_at T.reads) (length tokens.entry) [] tokens.entry) }
{
    let mut items = Vec::new(alloc);
    let mut rest = tokens;
    while goes_past(&rest, closing) {
        let (item, behind) = T::read(alloc, rest, items.len())?;
        items.push(item)?;
        rest = comma(behind, closing)?;
    }
    let (_, rest) = sign(rest, closing)?;
    Ok((items, rest))
}
