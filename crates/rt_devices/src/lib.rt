// Devices: threads that pend interrupts through the pending words while a core runs, and the seam at which a test may
// hold them.
// Promises: a device makes every pend of its script, in order, each once, and counts the answers.
// Stands on: rt_lemmas, rt_ids, rt_words.
// Read next: src/device.rt, then src/gate.rt.
#![tactic(auto)]

mod device;
mod gate;

pub use device::Device;
pub use gate::{Gate, NoGate};
