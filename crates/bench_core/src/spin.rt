// Lets a core spin, and counts what it shows.

ghost use Rattle.std.specs.Prelude.{◌≡◌, ◌<◌, ◌^◌};

use rt_core::Core;
use rt_trace::What;

/// What a core showed.
#[derive(Clone, Copy, PartialEq, Eq)]
pub struct Shown {
    /// How many items.
    pub items: u32,
    /// The values that it emitted, by exclusive or.
    pub values: u32,
}

impl Shown {
    /// With one item more.
    fn and(self, what: What) -> Shown {
        let value = match what {
            What::Emit(value) => value,
            _ => 0,
        };
        Shown {
            items: self.items.wrapping_add(1),
            values: self.values ^ value,
        }
    }
}

/// Runs a core for so many steps.
pub fn spin(core: &mut Core, steps: u32) -> Shown
    requires start { core.old.steps ≡ 0 }
    requires few { steps < 2 ^ 31 }
    ensures steps { core.new.steps ≡ steps }
{
    let mut shown = Shown {
        items: 0,
        values: 0,
    };
    for _ in 0..steps {
        if let Some(what) = core.step() {
            shown = shown.and(what);
        }
    }
    shown
}
