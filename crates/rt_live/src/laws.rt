// The law that the number of words is the documented one.

ghost use Rattle.rt_live.specs.Constants.{TellWords};

/// The number of pending words in numbers, as the documents have it.
pub fn constants_are_as_documented()
    ensures { TellWords }
{}
