// Where the posts of a core lead on the other core of a pair.
ghost use Rattle.std.specs.Prelude.{IfOk, None, slice_index_or, ℕ, ◌<◌, ◌≡◌, ◌≤◌};
ghost use Rattle.rt_ids.specs.declared.limits.TheConstants.{IRQ_NUMBERS};
ghost use Rattle.rt_dual.specs.Forwarded.{enables, forward};

use rt_code::Image;
use rt_ids::limits::IRQ_NUMBERS;
use rt_ids::{Irq, Names, NoMemory};
use rt_live::Routes;
use std::alloc::Global;

/// For each interrupt number of a core the one that a post of it pends on the other core.
#[derive(Drop)]
pub struct RouteTable {
    /// A place for each interrupt number, 0 to 495.
    pub places: Vec<Option<Irq>>,
}

impl Routes for RouteTable {
    ghost use Rattle.rt_dual.specs.Inside.Both.{leads_by};

    ghost leads = { leads_by };

    fn route(&self, posted: Irq) -> Option<Irq> {
        match self.places.get(usize::from(posted.get())) {
            Some(place) => *place,
            None => None,
        }
    }
}

/// Whether an image enables an interrupt.
fn is_enabled(image: &Image, irq: Irq) -> bool
    ensures { result ≡ enables image.now irq }
{
    image
        .irqs
        .iter()
        .any(|row| row.number == irq && row.handler.is_some())
}

/// The interrupt that a post of this one pends on the other core, whose names are given.
fn route(image: &Image, other: &Names, irq: Irq) -> Option<Irq>
    ensures { result ≡ forward image.now other.now irq }
{
    if is_enabled(image, irq) {
        return None;
    }
    let name = image.names.irq_name(irq)?;
    other.irq_named(name)
}

/// Where the posts of a core with this image go on the other core, whose names are given.
pub fn table_of(alloc: Global, image: &Image, other: &Names) -> Result<RouteTable, NoMemory>
    ensures there { IfOk result (λ table. (irq : ℕ) → irq < IRQ_NUMBERS
        → slice_index_or table.places.items irq None ≡ forward image.now other.now irq) }
    ensures above { IfOk result (λ table. (irq : ℕ) → IRQ_NUMBERS ≤ irq
        → slice_index_or table.places.items irq None ≡ None) }
{
    let mut places = Vec::new(alloc);
    for number in 0..IRQ_NUMBERS {
        let Some(irq) = Irq::new(number) else {
            unreachable!()
        };
        places.push(route(image, other, irq))?;
    }
    Ok(RouteTable { places })
}
