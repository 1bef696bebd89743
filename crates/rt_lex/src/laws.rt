// What the definition of tokens says of every text.

ghost use Rattle.std.specs.Prelude.{◌≡◌, ℕ, List};
ghost use Rattle.std.specs.List.{AllByRecursion};
ghost use Rattle.rt_lex.specs.Token.{Token};
ghost use Rattle.rt_lex.specs.Tokens.{tokens};
ghost use Rattle.rt_lex.specs.Gap.{HaveGaps};
ghost use Rattle.rt_lex.specs.Split.{LieIn, IsLongest};

/// The tokens of a text lie in it in order, none over another, and each is the slice of the text at its offset.
#[tactic(auto, using(crate::proofs::Parts::tokens_lie))]
pub fn tokens_lie_in_order()
    ensures { (src : List ℕ) → LieIn src 0 (tokens src) }
{}

/// Each token of a text is of its kind, and the longest that fits at its place.
#[tactic(auto, using(crate::proofs::Parts::tokens_longest))]
pub fn tokens_are_longest()
    ensures { (src : List ℕ) → AllByRecursion (IsLongest src) (tokens src) }
{}

/// Between the tokens of a text, before the first and after the last are blanks and comments alone.
#[tactic(auto, using(crate::proofs::Gaps::tokens_have_gaps))]
pub fn gaps_are_blanks_and_comments()
    ensures { (src : List ℕ) → HaveGaps src 0 (tokens src) }
{}

/// A list of tokens that meets these three, whatever it is, is the text's.
#[tactic(auto, using(crate::proofs::Unique::tokens_are_the_only))]
pub fn no_other_tokens_fit()
    ensures { (src : List ℕ) (split : List Token) → LieIn src 0 split → AllByRecursion (IsLongest src) split
        → HaveGaps src 0 split → split ≡ tokens src }
{}
