// A seam for tests, through which they hold what comes next.

/// A seam for tests: it is told what comes next, and may hold it. No contract says that it is told, or of what: a call
/// of it leaves nothing that a clause could name.
pub trait Gate {
    /// Comes before the latches that belong to core step `n`, from 0. In a pair of cores: of the first core.
    fn before_step(&self, n: u64);

    /// Comes before pend `n` of the device of this number, from 0; in a pair, of the core of this number.
    fn before_pend(&self, device: u8, n: u64);
}

/// Holds nothing.
#[derive(Clone, Copy)]
pub struct NoGate;

impl Gate for NoGate {
    fn before_step(&self, _n: u64) {}

    fn before_pend(&self, _device: u8, _n: u64) {}
}
