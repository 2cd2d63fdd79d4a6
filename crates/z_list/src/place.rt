// Where a line is read.

/// Outside marks, behind a full row or none, or behind a shorter one; behind a mark's beginning; among its instructions.
#[derive(Clone, Copy)]
pub enum Place {
    Outside(bool),
    Named,
    Inside,
}
