// Laws that join the commands: a text is of its kind or refused, and one status is due.

ghost use Rattle.rt_top.specs.Laws.{OneOfEachKind, OneStatusIsDue};
ghost use Rattle.rt_topx.specs.Rticx.{rticx_program};

/// A text is of its kind or is refused, not both, whatever the kind.
pub fn one_of_each_kind()
    ensures { OneOfEachKind rticx_program }
{}

/// No two statuses are due, whatever the command and the texts of its sources.
pub fn one_status_is_due()
    ensures { OneStatusIsDue rticx_program }
{}
