use once_cell::race::Note;
use row_plan::Plan;

/// What a caller has learned of one cell: nothing, or the plan that the cell keeps for good. It
/// takes no bytes.
#[derive(Drop)]
pub struct CellNote {
    pub(crate) note: Note<Plan>,
}
