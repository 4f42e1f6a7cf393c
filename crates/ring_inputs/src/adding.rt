#![tactic(auto)]
//! Rows of accumulators that are accumulated while rows of other stages are made.

ghost use Rattle.std.specs.Prelude.{◌≡◌};

use crate::inputs::RingInputs;
use row_rings::JobRings;
use row_totals::{RowTotal, RowTotals};
use std::alloc::AllocError;

// Most rows of an accumulator that are accumulated before the other accumulators read them too.
const MAX_ROWS_AT_ONCE: usize = 8;

// Accumulates the next rows of an accumulator before row `end`, as far as all that they read is available.
fn add_ring_inputs_to_total(
    rings: &JobRings<'_>,
    end: usize,
    total: &mut RowTotal<'_>,
) -> Result<(), AllocError>
    requires { total.old.job.now ≡ rings.now.job.now }
    ensures { total.new.job ≡ total.old.job }
{
    let inputs = RingInputs { rings };
    let first = total.next_summed_row();
    let most = total
        .count_summed_rows_left()
        .min(end.saturating_sub(first))
        .min(MAX_ROWS_AT_ONCE);
    let count = inputs.count_rows_with_ring_inputs(total.summed_stage(), first, most);
    if count > 0 {
        total.accumulate_next_summed_rows(&inputs, count)?;
    }
    Ok(())
}

/// Accumulates the next rows of each accumulator before row `end`: some of those of which all is available that is read there. A row that
/// is not accumulated is the next one still: the totals do not become whole then.
///
/// # Errors
///
/// Fails only where memory is refused.
pub fn add_ring_inputs_to_totals(
    rings: &JobRings<'_>,
    end: usize,
    totals: &mut RowTotals<'_>,
) -> Result<(), AllocError>
    requires { totals.old.job.now ≡ rings.now.job.now }
    ensures { totals.new.job ≡ totals.old.job }
{
    for place in 0..totals.totals.len() {
        add_ring_inputs_to_total(rings, end, &mut totals.totals[place])?;
    }
    Ok(())
}
