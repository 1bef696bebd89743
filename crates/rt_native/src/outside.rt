// Where what code touches lies, beside its own frame.

ghost use Rattle.std.specs.Prelude.{◌≡◌};
ghost use Rattle.rt_native.specs.Sequences.{cell as cell_of};

/// Addresses of what code touches beside its own frame.
#[derive(Clone, Copy)]
pub struct Outside {
    /// The address of cell 0.
    pub cells: u32,
    /// The address of the time; the alarm's instant is behind it.
    pub time: u32,
    /// The address of the word that `emit` writes.
    pub port: u32,
}

/// The address of a cell.
#[tactic(auto, unfolding(crate::specs::Sequences::cell))]
pub(crate) fn cell(at: Outside, cell: u32) -> u32
    ensures { result ≡ cell_of at cell }
{
    at.cells.wrapping_add(cell.wrapping_mul(4))
}
