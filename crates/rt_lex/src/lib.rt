// The tokens of application texts, and their places.
// Promises: exact: the tokens of a text are its split, and no other list is.
// Stands on: rt_lemmas, rt_ids.
// Read next: specs/Tokens.antt and specs/Split.antt, then src/tokens.rt.
#![tactic(auto)]

mod front;
mod laws;
mod line;
mod token;
mod tokens;

pub use laws::{
    gaps_are_blanks_and_comments, no_other_tokens_fit, tokens_are_longest, tokens_lie_in_order,
};
pub use line::place;
pub use token::{Kind, Token};
pub use tokens::Tokens;
