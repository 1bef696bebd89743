// Canonical texts of applications.
// Promises: the canonical text of a tree, which is read as the same tree, offsets aside.
// Stands on: rt_lemmas, rt_ids, rt_lex, rt_ast, rt_grammar.
// Read next: specs/ReadsBack.antt, then src/app.rt.
#![tactic(auto)]

pub mod app;
pub mod block;
pub mod declarations;
pub mod expr;
pub mod laws;
pub mod list;
pub mod options;
pub mod text;

pub use app::canonical;
