//! What a program and its stages are, as lines.

ghost use Rattle.std.specs.Prelude.{◌≡◌, ◌∷◌, ◌++◌, IfOk, OnOk, length};
ghost use Rattle.job.specs.Answers.{tiles};
ghost use Rattle.job.specs.Kept.{pipeline_in, program_text_in};
ghost use Rattle.job.specs.Views.{body_view, stage_view};
ghost use Rattle.commands.specs.Listing.{check_bytes, identity_line, kind_word, span_text, stage_head, stage_line_at};
ghost use Rattle.commands.specs.Listing.{stage_lines, stage_tail};

use domains::{Area, Span};
use job::{Body, Job, Stage};
use std::alloc::{AllocError, Global};

/// A line for the program's identity, one for that of its input, and one for each stage.
pub fn make_check_lines(alloc: Global, job: &Job) -> Result<Vec<u8>, AllocError>
    ensures { IfOk result
        (λ lines. lines.items ≡ check_bytes (program_text_in job.now) (pipeline_in job.now)) }
{
    let mut lines = Vec::new(alloc);
    put_check_line_of_word_and_identity(
        alloc,
        &mut lines,
        b"program",
        job.program_id().as_bytes(),
    )?;
    put_check_line_of_word_and_identity(alloc, &mut lines, b"input", job.input_id().as_bytes())?;
    put_check_lines_of_stages(alloc, &mut lines, job)?;
    Ok(lines)
}

/// A word and an identity.
fn put_check_line_of_word_and_identity(
    alloc: Global,
    lines: &mut Vec<u8>,
    word: &[u8],
    id: &[u8],
) -> Result<(), AllocError>
    ensures { OnOk result (lines.new.items ≡ lines.old.items ++ identity_line word.now id.now) }
{
    let digits = hex::encode(alloc, id)?;
    lines.extend_from_slice(word)?;
    lines.push(b' ')?;
    lines.extend_from_slice(digits.as_bytes())?;
    lines.push(b'\n')?;
    Ok(())
}

/// A line for each stage, in order.
fn put_check_lines_of_stages(
    alloc: Global,
    lines: &mut Vec<u8>,
    job: &Job,
) -> Result<(), AllocError>
    ensures { OnOk result (lines.new.items ≡ lines.old.items ++ stage_lines (pipeline_in job.now)) }
{
    for number in 0..job.stages().len() {
        put_check_line_of_stage(alloc, lines, job, number)?;
    }
    Ok(())
}

/// The line of the stage of this number, if there is one.
fn put_check_line_of_stage(
    alloc: Global,
    lines: &mut Vec<u8>,
    job: &Job,
    number: usize,
) -> Result<(), AllocError>
    ensures { OnOk result
        (lines.new.items ≡ lines.old.items ++ stage_line_at (pipeline_in job.now) number) }
{
    match job.stage(number) {
        Some(stage) => {
            put_check_line_number_kind_and_name(alloc, lines, number, stage)?;
            put_check_line_domain_and_tiles(
                alloc,
                lines,
                stage.domain(),
                count_check_line_tiles_of_stage(job, number),
            )
        }
        None => Ok(()),
    }
}

/// The number of a stage, its kind and its name.
fn put_check_line_number_kind_and_name(
    alloc: Global,
    lines: &mut Vec<u8>,
    number: usize,
    stage: &Stage,
) -> Result<(), AllocError>
    ensures { OnOk result
        (lines.new.items ≡ lines.old.items ++ stage_head number (stage_view stage.now)) }
{
    let text = format!(in alloc; "stage {number} ")?;
    lines.extend_from_slice(text.as_bytes())?;
    lines.extend_from_slice(choose_check_line_kind_word(stage.body()))?;
    lines.push(b' ')?;
    lines.extend_from_slice(stage.name().as_bytes())?;
    Ok(())
}

/// The word for what a stage is.
fn choose_check_line_kind_word(body: &Body) -> &'static [u8]
    ensures { result.now ≡ kind_word (body_view body.now) }
{
    match body {
        Body::Plane(_) => b"plane",
        Body::Function(_) => b"func",
        Body::Accumulator(_) => b"accum",
    }
}

/// The rows and the columns of a domain, and how many tiles there are.
fn put_check_line_domain_and_tiles(
    alloc: Global,
    lines: &mut Vec<u8>,
    domain: &Area,
    tiles: u64,
) -> Result<(), AllocError>
    ensures { OnOk result (lines.new.items ≡ lines.old.items ++ stage_tail domain.now tiles) }
{
    put_check_line_domain_span(alloc, lines, &domain.rows)?;
    put_check_line_domain_span(alloc, lines, &domain.cols)?;
    let count = format!(in alloc; " tiles {tiles}\n")?;
    lines.extend_from_slice(count.as_bytes())?;
    Ok(())
}

/// A blank and the ends of a span.
fn put_check_line_domain_span(
    alloc: Global,
    lines: &mut Vec<u8>,
    span: &Span,
) -> Result<(), AllocError>
    ensures { OnOk result (lines.new.items ≡ lines.old.items ++ 32 ∷ span_text span.now) }
{
    let text = format!(in alloc; " {}..{}", span.lo(), span.hi())?;
    lines.extend_from_slice(text.as_bytes())?;
    Ok(())
}

/// How many tiles the stage of this number has.
fn count_check_line_tiles_of_stage(job: &Job, number: usize) -> u64
    ensures { result ≡ length (tiles (pipeline_in job.now) number) }
{
    match job.grid(number) {
        Some(grid) => grid.tiles(),
        None => 0,
    }
}
