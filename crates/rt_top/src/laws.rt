// Laws that join the commands: one status is due, what is written is audited, one image is shown.

ghost use Rattle.rt_top.specs.Audited.{LivesAreAudited, PairsAreAudited, RunsAreAudited};
ghost use Rattle.rt_top.specs.Laws.{OneOfEachKind, OneStatusIsDue};
ghost use Rattle.rt_top.specs.OneImage.{LivesShowTheListing, OneListingIsBuilt, OneRunIsWritten, OneSoakIsWritten};
ghost use Rattle.rt_top.specs.OneImage.{PairsShowTheListings, RunsShowTheListing};
ghost use Rattle.rt_top.specs.Rtic.{rtic_program};

/// A text is of its kind or is refused, not both, whatever the kind.
pub fn one_of_each_kind()
    ensures { OneOfEachKind rtic_program }
{}

/// No two statuses are due, whatever the command and the texts of its sources: a text that is refused has no tree or
/// breaks a rule, and then nothing is its output.
pub fn one_status_is_due()
    ensures { OneStatusIsDue rtic_program }
{}

/// To what `run`, `live` and `pair` write the answer of `audit` is `yes`, with the number of the items of that trace.
pub fn what_is_written_is_audited()
    ensures runs { RunsAreAudited }
    ensures lives { LivesAreAudited }
    ensures pairs { PairsAreAudited }
{}

/// All that is written of an application shows the one image that `build` makes of it: `build` answers one listing,
/// `run` one text for each script and `soak` one summary for its numbers; `run`, `live` and each core of `pair` begin
/// with that listing.
pub fn what_is_written_shows_one_image()
    ensures listing { OneListingIsBuilt }
    ensures run { OneRunIsWritten }
    ensures soak { OneSoakIsWritten }
    ensures runs { RunsShowTheListing }
    ensures lives { LivesShowTheListing }
    ensures pairs { PairsShowTheListings }
{}
