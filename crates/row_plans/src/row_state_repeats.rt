#![tactic(auto)]
//! The windows of states after steps that are repeated.

ghost use Rattle.std.specs.Prelude.{◌≡◌, ◌+◌, ◌*◌, ◌<◌, ◌≤◌, ℕ, pos, true, List, All, IfOk, IfSome, length};
ghost use Rattle.row_plans.specs.Moved.{AreWindowsMoved, AreReadsMoved, IsLeft, CanRepeat, rows_more, states_moved, times_of};
ghost use Rattle.domains.specs.Span.{len_of};
ghost use Rattle.row_plans.specs.Windows.{AreWindowsOf, IsWindowOf};
ghost use Rattle.row_plans.specs.declared.row_state.RowState.{RowState as KeptState};

use crate::row_state_window::RowStateWindow;
use crate::stage_rows_read::StageRowsRead;
use std::alloc::{AllocError, Global};

/// How many rows of a stage were made between two lists of windows. None if one of them has no such stage.
pub(crate) fn count_row_state_rows_made(
    begun: &[RowStateWindow],
    ended: &[RowStateWindow],
    stage: usize,
) -> Option<i32>
    ensures { IfSome result (λ made. (states : List KeptState) (d : ℕ → ℕ)
        → AreWindowsMoved d states begun.now ended.now → made ≡ pos (d stage)) }
{
    match (begun.get(stage), ended.get(stage)) {
        (Some(first), Some(last)) => Some(last.next() - first.next()),
        _ => None,
    }
}

// Whether all that each stage reads moves with its rows.
fn are_row_state_reads_moved(
    rows: &[StageRowsRead],
    begun: &[RowStateWindow],
    ended: &[RowStateWindow],
) -> bool
    ensures { result ≡ true → (states : List KeptState) (d : ℕ → ℕ)
        → AreWindowsMoved d states begun.now ended.now → AreReadsMoved rows.now d states }
{
    for stage in 0..rows.len() {
        if !rows[stage].are_rows_read_moved(begun, ended, stage) {
            return false;
        }
    }
    true
}

// Whether of each output as many rows are made as rows of the picture are output.
fn are_row_state_outputs_moved(
    begun: &[RowStateWindow],
    ended: &[RowStateWindow],
    outputs: &[usize],
    height: usize,
) -> bool
    ensures { result ≡ true → (states : List KeptState) (d : ℕ → ℕ)
        → AreWindowsMoved d states begun.now ended.now → All (λ output. d output ≡ height) outputs.now }
{
    for output in outputs {
        if !has_row_state_moved_by(begun, ended, *output, height) {
            return false;
        }
    }
    true
}

// Whether so many rows of a stage were made between two lists of windows.
fn has_row_state_moved_by(
    begun: &[RowStateWindow],
    ended: &[RowStateWindow],
    stage: usize,
    height: usize,
) -> bool
    ensures { result ≡ true → (states : List KeptState) (d : ℕ → ℕ)
        → AreWindowsMoved d states begun.now ended.now → d stage ≡ height }
{
    match count_row_state_rows_made(begun, ended, stage) {
        Some(made) => made >= 0 && made as usize == height,
        None => false,
    }
}

// So many times as many rows.
fn count_row_state_rows_to_make(made: i32, times: usize) -> Option<usize>
    ensures { IfSome result (λ rows. (d : ℕ) → made ≡ pos d → rows ≡ times * d) }
{
    if made < 0 {
        return None;
    }
    times.checked_mul(made as usize)
}

// The window of a stage once as many rows more of it are made as between two lists of windows, so many times.
fn move_row_state_window(
    begun: &[RowStateWindow],
    ended: &[RowStateWindow],
    stage: usize,
    window: &RowStateWindow,
    times: usize,
) -> Option<RowStateWindow>
    ensures windows { IfSome result (λ moved. (states : List KeptState) (d : ℕ → ℕ) (state : KeptState)
        → AreWindowsMoved d states begun.now ended.now → IsWindowOf state window.now
        → IsWindowOf (rows_more (times_of times d stage) state) moved) }
    ensures left { IfSome result (λ moved. (states : List KeptState) (d : ℕ → ℕ) (state : KeptState)
        → AreWindowsMoved d states begun.now ended.now → IsWindowOf state window.now
        → 0 < times_of times d stage → state.next + times_of times d stage ≤ len_of state.area.rows) }
{
    let made = count_row_state_rows_made(begun, ended, stage)?;
    window.make_rows(count_row_state_rows_to_make(made, times)?)
}

// The windows once as many rows more of each stage are made as between two lists of windows, so many times. None if fewer are left.
fn list_moved_row_state_windows(
    alloc: Global,
    begun: &[RowStateWindow],
    ended: &[RowStateWindow],
    times: usize,
) -> Result<Option<Vec<RowStateWindow>>, AllocError>
    ensures windows { IfOk result (λ found. IfSome found (λ windows. (states : List KeptState) (d : ℕ → ℕ)
        → AreWindowsMoved d states begun.now ended.now
        → AreWindowsOf (states_moved (times_of times d) (states_moved d states)) windows.items)) }
    ensures left { IfOk result (λ found. IfSome found (λ windows. (states : List KeptState) (d : ℕ → ℕ)
        → AreWindowsMoved d states begun.now ended.now → length states ≡ length ended.now
        → IsLeft (states_moved d states) (times_of times d))) }
{
    let mut windows = Vec::with_capacity(alloc, ended.len())?;
    for stage in 0..ended.len() {
        match move_row_state_window(begun, ended, stage, &ended[stage], times) {
            Some(moved) => windows.push(moved)?,
            None => return Ok(None),
        }
    }
    Ok(Some(windows))
}

/// The windows once steps that led from the first windows to the others are taken again, so many times. Between the windows are so
/// many rows of the picture. None if it is not found that they can be taken.
///
/// # Errors
///
/// Fails only where memory is refused.
pub(crate) fn list_repeated_row_state_windows(
    alloc: Global,
    rows: &[StageRowsRead],
    begun: &[RowStateWindow],
    ended: &[RowStateWindow],
    outputs: &[usize],
    height: usize,
    times: usize,
) -> Result<Option<Vec<RowStateWindow>>, AllocError>
    ensures windows { IfOk result (λ found. IfSome found (λ windows. (states : List KeptState) (d : ℕ → ℕ)
        → AreWindowsMoved d states begun.now ended.now
        → AreWindowsOf (states_moved (times_of times d) (states_moved d states)) windows.items)) }
    ensures repeats { IfOk result (λ found. IfSome found (λ windows. (states : List KeptState) (d : ℕ → ℕ)
        → AreWindowsMoved d states begun.now ended.now → length states ≡ length ended.now
        → CanRepeat rows.now outputs.now d states height times)) }
{
    if are_row_state_reads_moved(rows, begun, ended)
        && are_row_state_outputs_moved(begun, ended, outputs, height)
    {
        list_moved_row_state_windows(alloc, begun, ended, times)
    } else {
        Ok(None)
    }
}
