// Where the posts of a core lead.

ghost use Rattle.std.specs.Prelude.{Option, ℕ, ◌≡◌};

use crate::share::Share;
use rt_ids::Irq;

/// Where the posts of a core lead: to which interrupts of the other core of a row.
pub trait Routes {
    /// The interrupt of the other core that a post of this one leads to, if it leads to one.
    ghost leads: { Self → ℕ → Option ℕ };

    /// The interrupt of the other core that a post of this one leads to.
    fn route(&self, posted: Irq) -> Option<Irq>
        ensures { result ≡ leads self.now posted };
}

/// No post leads to another core.
#[derive(Clone, Copy)]
pub struct NoRoutes;

impl Routes for NoRoutes {
    ghost use Rattle.rt_live.specs.Requests.{no_route};

    ghost leads = { λ _. no_route };

    fn route(&self, _posted: Irq) -> Option<Irq> {
        None
    }
}

/// The part of a core in a row: which events of the script come to it, and where its posts lead.
#[derive(Drop)]
pub struct CoreRole<T> {
    /// Which events of the script come to it.
    pub share: Share,
    /// Where its posts lead.
    pub routes: T,
}
