// Laws of listings as texts: each is read in one way.

ghost use Rattle.rt_load.specs.Constants.{TellLength};
ghost use Rattle.rt_load.specs.Laws.{AreReadOneWay};

/// Bytes that are not too long are a loadable image's listing or have a first wrong line, not both, and in one way.
pub fn texts_are_read_one_way()
    ensures { AreReadOneWay }
{}

/// The bytes that a listing may have in numbers, as the documents have them.
pub fn constants_are_as_documented()
    ensures { TellLength }
{}
