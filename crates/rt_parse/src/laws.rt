// Laws of the definitions: each text is an application's or has a refusal, and not both; and the trees of texts are
// printable.

ghost use Rattle.rt_parse.specs.Laws.{EachIsTextOrRefused, NoTextIsRefused, TextsKeepLimits};

/// What is the text of an application has no refusal.
pub fn no_text_is_refused()
    ensures { NoTextIsRefused }
{}

/// Any bytes are the text of an application or have a refusal.
pub fn each_is_text_or_refused()
    ensures { EachIsTextOrRefused }
{}

/// The tree of a text that is read is printable: its names are names, its numbers are of 32 bits, it keeps the limits,
/// and `init` lists nothing shared.
pub fn texts_keep_limits()
    ensures law { TextsKeepLimits }
{}
