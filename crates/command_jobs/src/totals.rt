//! The totals of accumulators as lines.

ghost use Rattle.std.specs.Prelude.{◌≡◌, ◌++◌, IfOk, OnOk};
ghost use Rattle.std.specs.List.{flat_map};
ghost use Rattle.accumulators.specs.Answers.{gathered};
ghost use Rattle.job.specs.Kept.{pipeline_in};
ghost use Rattle.job.specs.Totals.{totals as totals_of};
ghost use Rattle.command_jobs.specs.Results.{bin_text, ends_text, line_at, total_line};
ghost use Rattle.command_jobs.specs.inside.Gathering.{gathered_line};

use accumulators::Total;
use domains::Span;
use job::Job;
use pipe_tokens::Name;
use std::alloc::{AllocError, Global};

/// A line for each total.
pub fn make_total_lines(alloc: Global, job: &Job, totals: &[Total]) -> Result<Vec<u8>, AllocError>
    ensures { IfOk result (λ lines. lines.items
        ≡ flat_map (λ t. gathered_line (pipeline_in job.now) (gathered t)) totals.now) }
{
    let mut lines = Vec::new(alloc);
    for total in totals {
        put_total_line_if_of_accumulator(alloc, &mut lines, job, total)?;
    }
    Ok(lines)
}

/// Adds the line of a stage that has these totals, if it is an accumulator.
///
/// # Errors
///
/// Fails only where memory is refused.
pub fn put_total_line_of_stage(
    alloc: Global,
    lines: &mut Vec<u8>,
    job: &Job,
    stage: usize,
    bins: &[i64],
) -> Result<(), AllocError>
    requires { bins.now ≡ totals_of (pipeline_in job.now) stage }
    ensures { OnOk result
        (lines.new.items ≡ lines.old.items ++ line_at (pipeline_in job.now) stage) }
{
    match (job.name(stage), job.bins(stage)) {
        (Some(name), Some(span)) => {
            put_total_line_of_accumulator(alloc, lines, &name, &span, bins)
        }
        _ => Ok(()),
    }
}

/// The line of a total, if its stage is an accumulator.
fn put_total_line_if_of_accumulator(
    alloc: Global,
    lines: &mut Vec<u8>,
    job: &Job,
    total: &Total,
) -> Result<(), AllocError>
    ensures { OnOk result (lines.new.items
        ≡ lines.old.items ++ gathered_line (pipeline_in job.now) (gathered total.now)) }
{
    match (job.name(total.stage), job.bins(total.stage)) {
        (Some(name), Some(span)) => put_total_line_of_accumulator(
            alloc,
            lines,
            &name,
            &span,
            total.bins.as_slice(),
        ),
        _ => Ok(()),
    }
}

/// The name, the first and the last bin, and the value of each bin.
fn put_total_line_of_accumulator(
    alloc: Global,
    lines: &mut Vec<u8>,
    name: &Name,
    span: &Span,
    bins: &[i64],
) -> Result<(), AllocError>
    ensures { OnOk result
        (lines.new.items ≡ lines.old.items ++ total_line name.now span.now bins.now) }
{
    lines.extend_from_slice(name.as_bytes())?;
    put_total_line_bin_ends(alloc, lines, span)?;
    put_total_line_bin_values(alloc, lines, bins)?;
    lines.push(b'\n')?;
    Ok(())
}

/// The first and the last bin.
fn put_total_line_bin_ends(
    alloc: Global,
    lines: &mut Vec<u8>,
    span: &Span,
) -> Result<(), AllocError>
    ensures { OnOk result (lines.new.items ≡ lines.old.items ++ ends_text span.now) }
{
    let lo = span.lo();
    let hi = span.hi();
    let text = format!(in alloc; " {lo}..{hi}:")?;
    lines.extend_from_slice(text.as_bytes())
}

/// Each number after a blank.
fn put_total_line_bin_values(
    alloc: Global,
    lines: &mut Vec<u8>,
    bins: &[i64],
) -> Result<(), AllocError>
    ensures { OnOk result (lines.new.items ≡ lines.old.items ++ flat_map bin_text bins.now) }
{
    for bin in bins {
        put_total_line_bin_value(alloc, lines, *bin)?;
    }
    Ok(())
}

/// A blank and a number.
fn put_total_line_bin_value(alloc: Global, lines: &mut Vec<u8>, bin: i64) -> Result<(), AllocError>
    ensures { OnOk result (lines.new.items ≡ lines.old.items ++ bin_text bin) }
{
    let text = format!(in alloc; " {bin}")?;
    lines.extend_from_slice(text.as_bytes())
}
