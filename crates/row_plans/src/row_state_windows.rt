#![tactic(auto)]
//! The windows of the states of all stages.

ghost use Rattle.std.specs.Prelude.{◌≡◌, ◌≤ℤ◌, ℤ, true, List, IfOk, IfSome, length};
ghost use Rattle.row_plans.specs.Rows.{IsKeptAt};
ghost use Rattle.row_plans.specs.Windows.{AreWindowsOf};
ghost use Rattle.row_plans.specs.declared.row_state.RowState.{RowState as KeptState};

use crate::row_state::RowState;
use crate::row_state_window::RowStateWindow;
use std::alloc::{AllocError, Global};

/// The windows of some states. None if they are of no plan.
///
/// # Errors
///
/// Fails only where memory is refused.
pub(crate) fn list_row_state_windows(
    alloc: Global,
    states: &[RowState],
) -> Result<Option<Vec<RowStateWindow>>, AllocError>
    ensures windows { IfOk result (λ found. IfSome found (λ windows. AreWindowsOf states.now windows.items)) }
    ensures len { IfOk result (λ found. IfSome found
        (λ windows. length states.now ≡ length windows.items)) }
{
    let mut windows = Vec::with_capacity(alloc, states.len())?;
    for state in states {
        match RowStateWindow::from_row_state(state) {
            Some(window) => windows.push(window)?,
            None => return Ok(None),
        }
    }
    Ok(Some(windows))
}

/// Whether all rows of a stage are kept from row `first` to row `last`.
#[inline]
pub(crate) fn are_row_state_rows_kept(
    windows: &[RowStateWindow],
    stage: usize,
    first: i32,
    last: i32,
) -> bool
    ensures { result ≡ true → (states : List KeptState) → AreWindowsOf states windows.now
        → (row : ℤ) → first ≤ℤ row → row ≤ℤ last → IsKeptAt states stage row }
{
    match windows.get(stage) {
        Some(window) => window.keeps_rows(first, last),
        None => false,
    }
}
