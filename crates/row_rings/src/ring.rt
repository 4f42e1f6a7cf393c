#![tactic(auto)]
//! The rows of a stage that were made last.

ghost use Rattle.std.specs.Prelude.{◌≡◌, length, All};
ghost use Rattle.domains.specs.Span.{len_of};

use row_plans::RowState;

/// The rows of a stage that were made last, the oldest first, as numbers of 32 or of 16 bits. Until that many rows are made, the first
/// ones have no meaning.
#[derive(Drop)]
pub struct RowRing<T> {
    pub(crate) state: RowState,
    pub(crate) rows: Vec<Vec<T>>,
    ghost count: { length rows.items ≡ state.kept },
    ghost width: { All (λ row. length row.items ≡ len_of state.area.cols) rows.items },
}

/// The rings of stages, each at the place of its stage's number.
#[derive(Drop)]
pub struct RowRings<T> {
    pub(crate) rings: Vec<RowRing<T>>,
}
