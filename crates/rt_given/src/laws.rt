// A law on scripts beside devices: a text is read in one way.

ghost use Rattle.rt_ids.specs.Names.{Names};
ghost use Rattle.rt_lines.specs.Reading.{IsReadOneWay};
ghost use Rattle.rt_app.specs.Tree.{App};
ghost use Rattle.rt_board.specs.Board.{Board};
ghost use Rattle.rt_given.specs.Reading.{given_reader};
ghost use Rattle.rt_given.specs.Words.{WordsAreDrawn, WordsCountUp};

/// Each text that is not too long is a script beside devices or has a first wrong line, not both, and in one way.
#[tactic(auto, using(rt_lines::proofs::Reading::read_one_way))]
pub fn texts_are_read_one_way()
    ensures { (names : Names) (app : App) (board : Board) → IsReadOneWay (given_reader names app board) }
{}

/// The words that count up from a number are that number and those behind it, modulo 2^32.
#[tactic(auto, using(crate::proofs::Sources::count_up))]
pub fn words_count_up()
    ensures { WordsCountUp }
{}

/// The words that are drawn are those of the generator, in order.
#[tactic(auto, using(crate::proofs::Sources::are_drawn))]
pub fn words_are_drawn()
    ensures { WordsAreDrawn }
{}
