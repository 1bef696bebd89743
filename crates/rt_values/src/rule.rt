// The rule of a mailbox, and what each kind of step does to a view.
use crate::view::View;
use atomic_table::{Join, Play, Split, TableRule};

pub(crate) struct Law;

impl TableRule<(), View, ()> for Law {
    ghost use Rattle.rt_values.specs.Inside.Rule.{HasHistory};
    ghost use Rattle.rt_values.specs.Inside.Steps.{newcomer};

    ghost holds = { λ key. HasHistory };

    ghost first = { λ key. newcomer };
}

// The giver gives.
pub(crate) struct Give;

impl Play<(), View> for Give {
    ghost use Rattle.rt_values.specs.Inside.Steps.{give_step};

    ghost then = { give_step };
}

// The taker takes.
pub(crate) struct Take;

impl Play<(), View> for Take {
    ghost use Rattle.rt_values.specs.Inside.Steps.{take_step};

    ghost then = { take_step };
}

// The giver's seat is split off the taker's.
pub(crate) struct GiverSplit;

impl Split<View> for GiverSplit {
    ghost use Rattle.rt_values.specs.Inside.Steps.{view_of_taker, view_of_giver};

    ghost left = { view_of_taker };

    ghost right = { view_of_giver };
}

// The taker's seat takes in the giver's.
pub(crate) struct Meet;

impl Join<View> for Meet {
    ghost use Rattle.rt_values.specs.Inside.Steps.{view_of_both, spent_view};

    ghost both = { view_of_both };

    ghost spent = { spent_view };
}
