// The rules on applications, but for those on names: the first that is broken.
// Promises: exact: the application where no rule is broken, else the first violation.
// Stands on: rt_lemmas, rt_ids, rt_lex, rt_app, rt_resolve, rt_frames.
// Read next: src/verdict.rt, then src/statements.rt; the rules are in rt_app/specs/Rules.antt.
#![tactic(auto)]

pub mod declarations;
pub mod first;
pub mod judge;
pub mod lengths;
pub mod listing;
pub mod locked;
pub mod loops;
pub mod member;
pub mod numbers;
pub mod owned;
pub mod statements;
pub mod used;
pub mod verdict;

pub use verdict::rules;
