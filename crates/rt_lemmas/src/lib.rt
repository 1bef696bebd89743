// General lemmas, each once, on what the standard library has: tests, numbers, lists, texts, options and results.
// Promises: nothing about rtic: each lemma is about the standard library, and is proved once.
// Stands on: nothing but the library.
// Read next: no file in order: find a lemma by `rt lemma WORD..`.
#![tactic(auto)]
