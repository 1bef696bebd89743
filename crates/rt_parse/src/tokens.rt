// One token.

ghost use Rattle.std.specs.Prelude.{◌≡◌, nat_le, ◌&&◌, [], ◌∷◌};
ghost use Rattle.rt_ids.specs.declared.limit.Limit.{Limit};
ghost use Rattle.rt_ids.specs.declared.refusal.Refusal.TheVariants as refusal;
ghost use Rattle.rt_parse.specs.declared.stop.Stop.TheVariants.{At};
ghost use Rattle.rt_lex.specs.Token.{view, is_this_sign, is_this_word, is_this_name};
ghost use Rattle.rt_grammar.specs.Tokens.{limit_if};
ghost use Rattle.rt_parse.specs.Inside.Reading.{GivesRead, Leaves, begins_with, fault_found_at, wrong_token};
ghost use Rattle.rt_parse.specs.Inside.Reading.{limited_word_at, word_at, limited_sign_at, sign_at, limited_name_at};
ghost use Rattle.rt_parse.specs.Inside.Reading.{name_at, this_name_at, number_at, limited_number_at, unless_limited};
ghost use Rattle.rt_parse.specs.Inside.ReadingExpression.{is_name};
ghost use Rattle.rt_grammar.specs.Limits.{within, at_most, turn_limit};

use crate::stop::{Found, Stop};
use rt_ast::{Ident, Number};
use rt_ids::limits::{NAME_BYTES, TURNS};
use rt_ids::{Limit, Name, Refusal};
use rt_lex::{Kind, Token, Tokens};
use std::alloc::Global;

/// Whether this sign comes next.
pub(crate) fn begins_sign(tokens: &Tokens<'_>, sign: &[u8]) -> bool
    ensures { result ≡ begins_with (is_this_sign sign.now) tokens.now }
{
    match tokens.peek() {
        Some(token) => token.is_sign(sign),
        None => false,
    }
}

/// Whether this word comes next.
pub(crate) fn begins_word(tokens: &Tokens<'_>, word: &[u8]) -> bool
    ensures { result ≡ begins_with (is_this_word word.now) tokens.now }
{
    match tokens.peek() {
        Some(token) => token.is_word(word),
        None => false,
    }
}

/// A limit that is passed where this is so.
pub(crate) fn limit_if(passed: bool, limit: Limit) -> Option<Limit>
    ensures { result ≡ limit_if passed limit }
{
    if passed { Some(limit) } else { None }
}

/// The limit on a number of things, at one after so many others.
pub(crate) fn at_most(most: usize, limit: Limit, before: usize) -> Option<Limit>
    ensures { result ≡ at_most most limit before }
{
    limit_if(before >= most, limit)
}

/// What is wrong with the next token: no text of the grammar goes on so.
pub(crate) fn fault_found(tokens: &Tokens<'_>) -> Found
    ensures { result ≡ fault_found_at tokens.now }
{
    wrong_token(tokens.peek())
}

/// What is wrong with a token that was met, or with the end of the text.
pub(crate) fn wrong_token(token: Option<Token<'_>>) -> Found
    ensures { result ≡ wrong_token token.entry }
{
    match token {
        Some(token) => Found {
            at: Some(token.at),
            refusal: if token.kind == Kind::Foreign {
                Refusal::Foreign
            } else {
                Refusal::Syntax
            },
        },
        None => Found {
            at: None,
            refusal: Refusal::Syntax,
        },
    }
}

/// A word that may pass a limit. Gives its offset.
#[tactic(auto, unfolding(crate::specs::Inside::Reading::token_at))]
pub(crate) fn limited_word<'a>(
    mut tokens: Tokens<'a>,
    word: &[u8],
    limit: Option<Limit>,
) -> Result<(u32, Tokens<'a>), Stop>
    ensures { GivesRead (λ x. x) result (limited_word_at word.now limit tokens.entry) }
{
    match tokens.next() {
        Some(token) if token.is_word(word) => unless_limited(token.at, limit, token.at, tokens),
        other => Err(Stop::At(wrong_token(other))),
    }
}

/// A word. Gives its offset.
pub(crate) fn word<'a>(tokens: Tokens<'a>, word: &[u8]) -> Result<(u32, Tokens<'a>), Stop>
    ensures { GivesRead (λ x. x) result (word_at word.now tokens.entry) }
{
    limited_word(tokens, word, None)
}

/// Whether this name comes next.
pub(crate) fn begins_this_name(tokens: &Tokens<'_>, name: &[u8]) -> bool
    ensures { result ≡ begins_with (is_this_name name.now) tokens.now }
{
    match tokens.peek() {
        Some(token) => token.is_name(name),
        None => false,
    }
}

/// A name that has a meaning here, a contextual keyword. Gives its offset.
#[tactic(auto, unfolding(crate::specs::Inside::Reading::token_at))]
pub(crate) fn this_name<'a>(mut tokens: Tokens<'a>, name: &[u8]) -> Result<(u32, Tokens<'a>), Stop>
    ensures { GivesRead (λ x. x) result (this_name_at name.now tokens.entry) }
{
    match tokens.next() {
        Some(token) if token.is_name(name) => Ok((token.at, tokens)),
        other => Err(Stop::At(wrong_token(other))),
    }
}

/// Whether a token is the sign of this byte.
#[tactic(auto, using(crate::proofs::Operators::one_byte, crate::proofs::Operators::many_bytes))]
pub(crate) fn is_byte(token: &Token<'_>, sign: u8) -> bool
    ensures { result ≡ is_this_sign (sign ∷ []) (view token.now) }
{
    token.kind == Kind::Sign && token.text.len() == 1 && token.text[0] == sign
}

/// Whether a token is the sign of these two bytes.
#[tactic(auto, using(crate::proofs::Operators::two_bytes, crate::proofs::Operators::not_two_bytes))]
pub(crate) fn is_pair(token: &Token<'_>, first: u8, second: u8) -> bool
    ensures { result ≡ is_this_sign (first ∷ second ∷ []) (view token.now) }
{
    token.kind == Kind::Sign
        && token.text.len() == 2
        && token.text[0] == first
        && token.text[1] == second
}

/// Takes a sign that may pass a limit. Gives its offset.
#[tactic(auto, unfolding(crate::specs::Inside::Reading::token_at))]
pub(crate) fn take_sign(
    tokens: &mut Tokens<'_>,
    sign: &[u8],
    limit: Option<Limit>,
) -> Result<u32, Stop>
    ensures { Leaves (λ x. x) result tokens.new (limited_sign_at sign.now limit tokens.old) }
{
    match tokens.next() {
        Some(token) if token.is_sign(sign) => match limit {
            None => Ok(token.at),
            Some(limit) => Err(past_limit(token.at, limit)),
        },
        other => Err(Stop::At(wrong_token(other))),
    }
}

/// A sign that may pass a limit. Gives its offset.
pub(crate) fn limited_sign<'a>(
    mut tokens: Tokens<'a>,
    sign: &[u8],
    limit: Option<Limit>,
) -> Result<(u32, Tokens<'a>), Stop>
    ensures { GivesRead (λ x. x) result (limited_sign_at sign.now limit tokens.entry) }
{
    let at = take_sign(&mut tokens, sign, limit)?;
    Ok((at, tokens))
}

/// A sign. Gives its offset.
pub(crate) fn sign<'a>(tokens: Tokens<'a>, sign: &[u8]) -> Result<(u32, Tokens<'a>), Stop>
    ensures { GivesRead (λ x. x) result (sign_at sign.now tokens.entry) }
{
    limited_sign(tokens, sign, None)
}

/// Takes a name that may pass a limit besides its own.
#[tactic(auto, unfolding(crate::specs::Inside::Reading::token_at))]
pub(crate) fn take_name(
    alloc: Global,
    tokens: &mut Tokens<'_>,
    limit: Option<Limit>,
) -> Result<Ident, Stop>
    ensures { Leaves (λ x. x) result tokens.new (limited_name_at limit tokens.old) }
{
    match tokens.next() {
        Some(token) if is_name(&token) => {
            let limit = limit_if(token.text.len() > NAME_BYTES, Limit::Name).or(limit);
            if let Some(limit) = limit {
                return Err(past_limit(token.at, limit));
            }
            let name = Name::of(alloc, token.text)?;
            Ok(Ident { name, at: token.at })
        }
        other => Err(Stop::At(wrong_token(other))),
    }
}

/// A name that may pass a limit besides its own.
pub(crate) fn limited_name<'a>(
    alloc: Global,
    mut tokens: Tokens<'a>,
    limit: Option<Limit>,
) -> Result<(Ident, Tokens<'a>), Stop>
    ensures { GivesRead (λ x. x) result (limited_name_at limit tokens.entry) }
{
    let name = take_name(alloc, &mut tokens, limit)?;
    Ok((name, tokens))
}

/// A name. Its own limit is judged, and no other.
pub(crate) fn name<'a>(alloc: Global, tokens: Tokens<'a>) -> Result<(Ident, Tokens<'a>), Stop>
    ensures { GivesRead (λ x. x) result (name_at tokens.entry) }
{
    limited_name(alloc, tokens, None)
}

/// Takes a number. Its own limit is judged, and no other.
#[tactic(auto, unfolding(crate::specs::Inside::Reading::token_at))]
pub(crate) fn take_number(tokens: &mut Tokens<'_>) -> Result<Number, Stop>
    ensures { Leaves (λ x. x) result tokens.new (number_at tokens.old) }
{
    let token = tokens.next().ok_or(Stop::At(wrong_token(None)))?;
    match token.kind {
        Kind::Num => match token.value() {
            Some(value) => Ok(Number {
                value,
                at: token.at,
            }),
            None => Err(past_limit(token.at, Limit::Number)),
        },
        _ => Err(Stop::At(wrong_token(Some(token)))),
    }
}

/// A number. Its own limit is judged, and no other.
pub(crate) fn number(mut tokens: Tokens<'_>) -> Result<(Number, Tokens<'_>), Stop>
    ensures { GivesRead (λ x. x) result (number_at tokens.entry) }
{
    let number = take_number(&mut tokens)?;
    Ok((number, tokens))
}

/// Whether a token is a name.
fn is_name(token: &Token<'_>) -> bool
    ensures { result ≡ is_name (view token.now) }
{
    match token.kind {
        Kind::Name => true,
        _ => false,
    }
}

/// Whether a name comes next.
pub(crate) fn begins_name(tokens: &Tokens<'_>) -> bool
    ensures { result ≡ begins_with is_name tokens.now }
{
    match tokens.peek() {
        Some(token) => is_name(&token),
        None => false,
    }
}

/// That what is at this offset passes a limit.
fn past_limit(at: u32, limit: Limit) -> Stop
    ensures { result ≡ At (record { at = Some at; refusal = refusal.Limit limit }) }
{
    Stop::At(Found {
        at: Some(at),
        refusal: Refusal::Limit(limit),
    })
}

/// What was read at this offset, unless it passes a limit.
fn unless_limited<T: Drop>(
    at: u32,
    limit: Option<Limit>,
    read: T,
    tokens: Tokens<'_>,
) -> Result<(T, Tokens<'_>), Stop>
    ensures { GivesRead (λ x. x) result (unless_limited at limit read tokens.entry) }
{
    match limit {
        None => Ok((read, tokens)),
        Some(limit) => Err(past_limit(at, limit)),
    }
}

/// Whether a number is from the least to the greatest.
fn is_within(value: u32, least: u32, greatest: u32) -> bool
    ensures { result ≡ nat_le least value && nat_le value greatest }
{
    least <= value && value <= greatest
}

/// A number from the least to the greatest, by this limit.
pub(crate) fn number_within(
    tokens: Tokens<'_>,
    least: u32,
    greatest: u32,
    limit: Limit,
) -> Result<(Number, Tokens<'_>), Stop>
    ensures { GivesRead (λ x. x) result (limited_number_at (within least greatest limit) tokens.entry) }
{
    let (number, tokens) = number(tokens)?;
    let passes = !is_within(number.value, least, greatest);
    let limit = limit_if(passes, limit);
    unless_limited(number.at, limit, number, tokens)
}

/// The number that a loop from the first one does not reach. The limit is on its turns.
pub(crate) fn last_number(tokens: Tokens<'_>, first: u32) -> Result<(Number, Tokens<'_>), Stop>
    ensures { GivesRead (λ x. x) result (limited_number_at (turn_limit first) tokens.entry) }
{
    let (number, tokens) = number(tokens)?;
    let turns = number.value.saturating_sub(first);
    let limit = limit_if(turns > TURNS, Limit::Turns);
    unless_limited(number.at, limit, number, tokens)
}
