// The keys of the ready interrupts, and their tournament: a tree in which each node has the lesser of the keys of the
// two below it, so the first has the least of all. Below node i are the nodes 2 i and 2 i + 1. The leaf of an interrupt
// number n is node LEAVES + n.
ghost use Rattle.std.specs.Prelude.{◌≡◌, ◌≢◌, ℕ, ◌<◌, min, length};
ghost use Rattle.rt_ids.specs.declared.limits.TheConstants.{IRQ_NUMBERS};
ghost use Rattle.rt_nvic.specs.declared.sizes.TheConstants.{NODES};
ghost use Rattle.rt_nvic.specs.Inside.Keys.{key, leaf, IsTournament};

use crate::sizes::{LEAVES, NO_KEY};

/// The key of an interrupt: of those that are pending and enabled the one of the least key is taken first.
#[inline]
pub(crate) fn key(number: u16, priority: Option<u8>, pending: bool) -> u32
    requires { number < IRQ_NUMBERS }
    ensures { result ≡ key number priority pending }
{
    let Some(value) = priority else {
        return NO_KEY;
    };
    if pending {
        u32::from(value) * LEAVES + u32::from(number)
    } else {
        NO_KEY
    }
}

/// Gives the leaf of a number this key.
pub(crate) fn set_key(nodes: &mut [u32], number: u16, key: u32)
    requires number { number < IRQ_NUMBERS }
    requires long { length nodes.old ≡ NODES }
    requires tournament { IsTournament nodes.old }
    ensures tournament { IsTournament nodes.new }
    ensures long { length nodes.new ≡ NODES }
    ensures same { leaf nodes.new number ≡ key }
    ensures others { (other : ℕ) → other ≢ number → leaf nodes.new other ≡ leaf nodes.old other }
{
    let mut at = LEAVES as usize + usize::from(number);
    nodes[at] = key;
    while at > 1 {
        at /= 2;
        let least = lesser(nodes[2 * at], nodes[2 * at + 1]);
        let held = nodes[at];
        if held == least {
            return;
        }
        nodes[at] = least;
    }
}

/// The lesser of two keys.
#[inline]
fn lesser(one: u32, other: u32) -> u32
    ensures { result ≡ min one other }
{
    if one < other { one } else { other }
}
