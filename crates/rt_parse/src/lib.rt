// From application texts to trees.
// Promises: exact: the one tree of a text, which is printable, or the text's first refusal at its place.
// Stands on: rt_lemmas, rt_ids, rt_lex, rt_ast, rt_grammar.
// Read next: src/text.rt, then src/statement.rt; specs/Inside/Reading.antt for the readers as definitions.
#![tactic(auto)]

mod body;
mod declaration;
mod expression;
pub mod laws;
mod list;
mod statement;
mod stop;
mod text;
mod tokens;

pub use text::parse;
