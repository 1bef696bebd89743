// What a body does, step by step: its actions, what they do to what is kept at locations, and who may touch what.
// Promises: definitions and one lemma, no code: the tree of actions that tells all meaning, and what each answers.
// Stands on: rt_ids.
// Read next: specs/Doing.antt, then specs/Action.antt and specs/Content.antt.
#![tactic(auto)]
