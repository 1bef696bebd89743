// The law that an accepted application has few cells.

ghost use Rattle.rt_layout.specs.Few.{CellsAreFew};

/// Every accepted application has fewer than 16,384 cells.
#[tactic(auto, using(crate::proofs::Few::cells_are_few))]
pub fn accepted_applications_have_few_cells()
    ensures { CellsAreFew }
{}
