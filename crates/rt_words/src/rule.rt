// The rule of the words, and what each kind of step does to a view.
use crate::view::View;
use atomic_table::{Join, Play, Split, TableRule};
use std::marker::{Brand, PhantomData};

pub(crate) struct Law;

impl TableRule<(), View, [u32; 32]> for Law {
    ghost use Rattle.rt_words.specs.Inside.Rule.{HasHistory};
    ghost use Rattle.rt_words.specs.Inside.Steps.{newcomer};

    ghost holds = { HasHistory };

    ghost first = { newcomer };
}

// A line pends.
pub(crate) struct Pend;

impl Play<(), View> for Pend {
    ghost use Rattle.rt_words.specs.Inside.Steps.{pend_step};

    ghost then = { pend_step };
}

// A line latches.
pub(crate) struct Latch;

impl Play<(), View> for Latch {
    ghost use Rattle.rt_words.specs.Inside.Steps.{latch_step};

    ghost then = { latch_step };
}

// A line looks at a word before it latches it.
pub(crate) struct Glance;

impl Play<(), View> for Glance {
    ghost use Rattle.rt_words.specs.Inside.Steps.{glance_step};

    ghost then = { glance_step };
}

// The number of the line that is being made. Each call of a program picks it.
pub(crate) trait Numbered {
    ghost use Rattle.std.specs.Prelude.{ℕ};

    ghost number: { ℕ };
}

impl Numbered for Brand {
    ghost number = { 0 };
}

// The first line splits off the seat of the new line.
pub(crate) struct SplitOff<N> {
    of: PhantomData<N>,
}

impl<N: Numbered> Split<View> for SplitOff<N> {
    ghost use Rattle.rt_words.specs.Inside.Steps.{view_after_split, view_of_new};

    ghost left = { view_after_split N.number };

    ghost right = { view_of_new N.number };
}

// The first line takes in another.
pub(crate) struct Gather;

impl Join<View> for Gather {
    ghost use Rattle.rt_words.specs.Inside.Steps.{view_after_join, spent_view};

    ghost both = { view_after_join };

    ghost spent = { spent_view };
}

// The first line looks after a join.
pub(crate) struct Look;

impl Play<(), View> for Look {
    ghost use Rattle.rt_words.specs.Inside.Steps.{look_step};

    ghost then = { look_step };
}
