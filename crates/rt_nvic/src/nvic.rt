// The interrupt controller: what is pending, enabled and active, and what is taken next.

ghost use Rattle.std.specs.Prelude.{◌≡◌, ℕ, ◌+◌, ◌*◌, ◌<◌, ◌||◌, true, false, [], ◌∷◌, length};
ghost use Rattle.std.specs.Prelude.{replicate, slice_get, slice_set, Some, None, IsTrue, IsSome, IfSome, IfNone};
ghost use Rattle.std.specs.Int.{bit_at};
ghost use Rattle.rt_ids.specs.declared.limits.TheConstants.{IRQ_NUMBERS};
ghost use Rattle.rt_nvic.specs.declared.sizes.TheConstants.{ACTIVE};
ghost use Rattle.rt_nvic.specs.Nvic as spec;
ghost use Rattle.rt_ids.specs.Arrivals.{arrivals, pending_with, holds};

use crate::bits::{clear_bit, has_bit, set_bit};
use crate::keys::{key, set_key};
use crate::sizes::{ACTIVE, LEAVES, NO_KEY, NODES, NUMBERS, WORDS};
use rt_ids::Irq;
use rt_ids::limits::{IRQ_NUMBERS, THREAD_VALUE};
use std::marker::Model;

/// The state of each external interrupt: whether it is enabled and with which priority value, whether it is pending,
/// and which ones are active. An interrupt may be active and pending.
#[derive(Drop)]
pub struct Nvic {
    /// By number, the priority value of an enabled interrupt.
    priorities: [Option<u8>; NUMBERS],
    /// The bits of those that are pending.
    pending: [u32; WORDS],
    /// From `top` on, the active ones, last entered first.
    active: [Irq; ACTIVE],
    /// From 0, where the array is full, to `ACTIVE`, where none is active.
    top: usize,
    /// The tournament of those that are pending and enabled.
    nodes: [u32; NODES],
}

impl Model for Nvic {
    ghost use Rattle.std.specs.Prelude.{drop};
    ghost use Rattle.rt_nvic.specs.Nvic.{Nvic};
    ghost use Rattle.rt_nvic.specs.Inside.Bits.{flags};
    ghost use Rattle.rt_nvic.specs.Inside.Fields.{IsKept};

    ghost Value = { Nvic };

    ghost view = { λ n. record {
      priorities = n.priorities;
      pending = flags n.pending;
      active = drop n.top n.active;
    } };

    ghost invariant = { λ n. IsKept n.priorities n.pending n.active n.top n.nodes };
}

impl Nvic {
    /// A controller with nothing enabled, pending or active.
    pub fn new() -> Nvic
        ensures { result
            ≡ record { priorities = replicate IRQ_NUMBERS None; pending = replicate IRQ_NUMBERS false; active = [] } }
    {
        let Some(irq) = Irq::new(0) else {
            unreachable!()
        };
        Nvic {
            priorities: [None; NUMBERS],
            pending: [0; WORDS],
            active: [irq; ACTIVE],
            top: ACTIVE,
            nodes: [NO_KEY; NODES],
        }
    }

    /// Enables an interrupt with this priority value, 0 to 255: a smaller value is a higher priority.
    pub fn enable(&mut self, irq: Irq, prio: u8)
        ensures { self.new ≡ record self.old { priorities = slice_set self.old.priorities irq (Some prio) } }
    {
        let number = irq.get();
        self.priorities[usize::from(number)] = Some(prio);
        let key = key(number, Some(prio), has_bit(&self.pending, number));
        set_key(&mut self.nodes, number, key);
    }

    /// Sets the interrupts pending whose bits this word holds: bit b of word k is interrupt 32 * k + b.
    pub fn arrive(&mut self, k: u8, bits: u32)
        requires in_range { (bit : ℕ) → bit < 32 → bit_at bits bit ≡ 1 → 32 * k + bit < IRQ_NUMBERS }
        ensures state { self.new ≡ record self.old { pending = pending_with (arrivals k bits) self.old.pending } }
        ensures each { (irq : ℕ) → irq < IRQ_NUMBERS
            → spec.is_pending self.new irq ≡ (spec.is_pending self.old irq || holds k bits irq) }
    {
        // The clauses need the lengths, which are known where a field is used.
        let _ = &self.top;
        let word = u64::from(bits);
        let mut from: u16 = 0;
        while word >> from != 0 {
            let bit = from + (word >> from).trailing_zeros() as u16;
            self.post_number(32 * u16::from(k) + bit);
            from = bit + 1;
        }
    }

    /// Sets an interrupt pending. One that is active is then active and pending; one that is pending stays as it is.
    #[inline]
    pub fn post(&mut self, irq: Irq)
        ensures { self.new ≡ record self.old { pending = slice_set self.old.pending irq true } }
    {
        let number = irq.get();
        set_bit(&mut self.pending, number);
        let key = key(number, self.priorities[usize::from(number)], true);
        set_key(&mut self.nodes, number, key);
    }

    /// Sets the interrupt of a number pending.
    #[inline]
    fn post_number(&mut self, number: u16)
        requires { number < IRQ_NUMBERS }
        ensures { self.new ≡ record self.old { pending = slice_set self.old.pending number true } }
    {
        let Some(irq) = Irq::new(number) else {
            unreachable!()
        };
        self.post(irq);
    }

    /// Whether an interrupt is pending.
    #[inline]
    pub fn is_pending(&self, irq: Irq) -> bool
        ensures { result ≡ spec.is_pending self.now irq }
    {
        has_bit(&self.pending, irq.get())
    }

    /// The interrupt that is taken at an execution priority, which is 256 where nothing runs or masks: of those that
    /// are ready the one of the smallest priority value, and of equal ones the one of the lowest number.
    #[inline]
    pub fn pick(&self, exec: u16) -> Option<Irq>
        ensures value { result ≡ spec.picked_irq self.now exec }
        ensures ready { IfSome result (λ irq. spec.IsReady self.now exec irq) }
        ensures first { IfSome result
            (λ irq. (other : ℕ) → spec.IsReady self.now exec other → spec.Precedes self.now irq other) }
        ensures none { IfNone result ((irq : ℕ) → ¬ spec.IsReady self.now exec irq) }
        ensures sizes { spec.IsSized self.now }
    {
        let first = self.nodes[1];
        let limit = u32::from(exec) * LEAVES;
        if first >= limit {
            return None;
        }
        let Some(irq) = Irq::new((first % LEAVES) as u16) else {
            unreachable!()
        };
        Some(irq)
    }

    /// Enters an interrupt: it is pending no more, and active.
    pub fn enter(&mut self, irq: Irq)
        requires enabled { IsSome (spec.priority_of self.old irq) }
        requires pending { IsTrue (spec.is_pending self.old irq) }
        requires room { length self.old.active < ACTIVE }
        ensures pending { self.new.pending ≡ slice_set self.old.pending irq false }
        ensures active { self.new.active ≡ irq ∷ self.old.active }
        ensures priorities { self.new.priorities ≡ self.old.priorities }
    {
        let number = irq.get();
        clear_bit(&mut self.pending, number);
        set_key(&mut self.nodes, number, NO_KEY);
        self.top -= 1;
        self.active[self.top] = irq;
    }

    /// Returns from the interrupt that was taken last.
    pub fn leave(&mut self) -> Irq
        requires { 0 < length self.old.active }
        ensures active { self.old.active ≡ result ∷ self.new.active }
        ensures pending { self.new.pending ≡ self.old.pending }
        ensures priorities { self.new.priorities ≡ self.old.priorities }
    {
        let irq = self.active[self.top];
        self.top += 1;
        irq
    }

    /// Nothing is pending or active any more. What is enabled stays so, with its priority value.
    pub fn reset(&mut self)
        ensures { self.new ≡ record self.old { pending = replicate IRQ_NUMBERS false; active = [] } }
    {
        self.pending = [0; WORDS];
        self.top = ACTIVE;
        self.nodes = [NO_KEY; NODES];
    }

    /// The interrupt that was taken last, and None where none is active.
    #[inline]
    pub fn last_entered(&self) -> Option<Irq>
        ensures { result ≡ slice_get self.now.active 0 }
    {
        self.active.get(self.top).copied()
    }

    /// The priority value of the interrupt that was taken last, and 256 where none is active.
    #[inline]
    pub fn running(&self) -> u16
        ensures { result ≡ spec.value_of_running self.now }
    {
        if self.top == ACTIVE {
            return THREAD_VALUE;
        }
        let irq = self.active[self.top];
        match self.priorities[usize::from(irq.get())] {
            Some(value) => u16::from(value),
            None => THREAD_VALUE,
        }
    }
}
