// The grammar of application texts, and the first refusal of a text that is not in it, as definitions in specs/.
// Promises: definitions only, no code: what a text of the language is, and what is refused first.
// Stands on: rt_ids, rt_lex, rt_ast.
// Read next: specs/Text.antt, then specs/Statement.antt for a form.
#![tactic(auto)]
