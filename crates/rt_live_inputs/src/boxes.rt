// The mailboxes of a script.
use rt_ids::Irq;

/// What a mailbox is for: its device, the interrupt that each of its words requests, and the local resource that each
/// is for, by its index in the order of declaration.
#[derive(Clone, Copy)]
pub struct BoxKind {
    /// The number of the device, 0 to 15.
    pub device: u8,
    /// The interrupt.
    pub irq: Irq,
    /// The local resource.
    pub local: u8,
}
