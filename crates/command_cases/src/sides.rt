// Sides that run beside each other, and how far each has come. A gate compares them: one side waits until another has
// come so far, and a wait that does not end is told.
use std::sync::atomic::Ordering::SeqCst;
use std::sync::atomic::{AtomicBool, AtomicU64};
use std::thread;
use std::time::{Clock, Duration};

/// How often a hold looks whether it is over, before it gives up.
const TURNS: u32 = 10_000;

/// How long it waits between two looks, in milliseconds.
const PAUSE: u64 = 1;

/// Waits of a run, and whether one of them gave up.
pub(crate) struct Holds<'a, R> {
    rt: &'a R,
    is_late: AtomicBool,
}

impl<R> Drop for Holds<'_, R> {
    fn drop(self) {
        let Holds { rt: _, is_late: _ } = self;
    }
}

impl<'a, R: Clock> Holds<'a, R> {
    /// None has given up yet.
    pub(crate) fn of(rt: &'a R) -> Holds<'a, R> {
        Holds {
            rt,
            is_late: AtomicBool::new(false),
        }
    }

    /// Waits until so many have come. Once a wait gave up, none is begun.
    pub(crate) fn until(&self, come: &AtomicU64, wanted: u64) {
        for _turn in 0..TURNS {
            if self.is_late() || come.load(SeqCst) >= wanted {
                return;
            }
            thread::sleep(self.rt, Duration::from_millis(PAUSE));
        }
        self.is_late.store(true, SeqCst);
    }

    /// Whether a wait gave up.
    pub(crate) fn is_late(&self) -> bool {
        self.is_late.load(SeqCst)
    }
}

/// How far a core and what pends at it have come.
pub(crate) struct Sides<'a, R> {
    holds: Holds<'a, R>,
    /// The core step that is held.
    step: u64,
    /// The core steps that have come.
    steps: AtomicU64,
    /// The pends that have come.
    pends: AtomicU64,
}

impl<R> Drop for Sides<'_, R> {
    fn drop(self) {
        let Sides {
            holds: _,
            step: _,
            steps: _,
            pends: _,
        } = self;
    }
}

impl<'a, R: Clock> Sides<'a, R> {
    /// Sides of which nothing has come, with the core step that is held.
    pub(crate) fn of(rt: &'a R, step: u64) -> Sides<'a, R> {
        Sides {
            holds: Holds::of(rt),
            step,
            steps: AtomicU64::new(0),
            pends: AtomicU64::new(0),
        }
    }

    /// A core step comes. The one that is held waits until so many pends have come.
    pub(crate) fn step(&self, n: u64, pends: u64) {
        self.steps.store(n.saturating_add(1), SeqCst);
        if n == self.step {
            self.hold_for(pends);
        }
    }

    /// Waits until so many pends have come.
    pub(crate) fn hold_for(&self, pends: u64) {
        self.holds.until(&self.pends, pends);
    }

    /// A pend comes. The first one waits until the held core step has come.
    pub(crate) fn pend(&self, n: u64) {
        self.pends.store(n.saturating_add(1), SeqCst);
        if n == 0 {
            self.hold_behind(0);
        }
    }

    /// Waits until the held core step has come, and so many behind it.
    pub(crate) fn hold_behind(&self, later: u64) {
        self.holds.until(
            &self.steps,
            self.step.saturating_add(1).saturating_add(later),
        );
    }

    /// Whether a hold gave up.
    pub(crate) fn is_late(&self) -> bool {
        self.holds.is_late()
    }
}
