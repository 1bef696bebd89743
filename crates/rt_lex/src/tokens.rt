// The tokens of a text, one after another.

ghost use Rattle.std.specs.Prelude.{◌≡◌, ◌+◌, ◌≤◌, List, [], ◌∷◌, drop, length, MatchOption};
ghost use Rattle.std.specs.Iterator.{YieldsFirstBy, item_count};
ghost use Rattle.rt_ids.specs.declared.limits.TheConstants.{TEXT_BYTES};
ghost use Rattle.rt_lex.specs.Token.{Token, view};
ghost use Rattle.rt_lex.specs.Tokens.{tokens, tokens_at};
ghost use Rattle.rt_lex.specs.Inside.Ahead.{with_ahead};

use crate::front::front_of;
use crate::token::Token;
use std::marker::Model;

/// The tokens of a text that are left, in order. They borrow from the text. Contracts see their list.
#[derive(Drop)]
pub struct Tokens<'a> {
    /// The token that comes next.
    ahead: Option<Token<'a>>,
    /// The bytes after it.
    rest: &'a [u8],
    /// The bytes of the text before the rest.
    at: u32,
}

impl<'a> Model for Tokens<'a> {
    ghost Value = { List Token };

    ghost view = { λ t. with_ahead t.ahead (tokens_at t.at t.rest.now) };

    ghost invariant = { λ t. t.at + length t.rest.now ≤ TEXT_BYTES };
}

impl<'a> Tokens<'a> {
    /// The tokens of a text.
    #[tactic(auto, using(crate::proofs::Parts::tokens_are_few))]
    pub fn of(src: &'a [u8]) -> Tokens<'a>
        requires { length src.now ≤ TEXT_BYTES }
        ensures all { result ≡ tokens src.now }
        ensures few { length result ≤ length src.now }
    {
        tokens_from(src, 0)
    }

    /// The token that `next` gives, which stays. None exactly where only blanks and comments are left.
    pub fn peek(&self) -> Option<Token<'a>>
        ensures { MatchOption result (self.now ≡ []) (λ t. self.now ≡ view t ∷ drop 1 self.now) }
    {
        self.ahead
    }
}

impl<'a> Iterator for Tokens<'a> {
    type Item = Token<'a>;

    ghost next_gives = { YieldsFirstBy view (λ tokens. tokens) };

    ghost remaining = { item_count (λ tokens. tokens) };

    fn next(&mut self) -> Option<Token<'a>> {
        let token = self.ahead?;
        *self = tokens_from(self.rest, self.at);
        Some(token)
    }
}

/// The tokens of a text at an offset.
fn tokens_from(text: &[u8], start: u32) -> Tokens<'_>
    requires { start + length text.now ≤ TEXT_BYTES }
    ensures { result ≡ tokens_at start text.now }
{
    let mut rest = text;
    let mut at = start;
    while let [first, ..] = rest {
        let front = front_of(*first, rest);
        let (bytes, behind) = rest.split_at(front.len);
        let end = at + front.len as u32;
        if let Some(kind) = front.kind {
            let token = Token {
                text: bytes,
                at,
                kind,
            };
            return Tokens {
                ahead: Some(token),
                rest: behind,
                at: end,
            };
        }
        rest = behind;
        at = end;
    }
    Tokens {
        ahead: None,
        rest,
        at,
    }
}
