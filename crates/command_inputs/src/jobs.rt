//! From the bytes of an input to its job.

ghost use Rattle.std.specs.Prelude.{◌≡◌, ◌≤◌, IfOk, IfErr, List, drop, length};
ghost use Rattle.domains.specs.Sides.{Sides};
ghost use Rattle.pipe_print.specs.Canonical.{canonical};
ghost use Rattle.pipe_tree.specs.Content.{content};
ghost use Rattle.pipe_tree.specs.Limits.{most_bytes};
ghost use Rattle.pipe_tree.specs.Tree.{declarations};
ghost use Rattle.pipe_checks.specs.Names.{tables_of};
ghost use Rattle.job.specs.Kept.{pipeline_in, program_text_in};
ghost use Rattle.job.specs.WellFormed.{IsJob, IsSmall};
ghost use Rattle.command_inputs.specs.Faults.{IsFaultAround, IsFaultOf, IsJobFault, IsSpellingFault};
ghost use Rattle.command_inputs.specs.Faults.{HasShortText, HasShortTextInThree, IsMemoryOnlyIf};
ghost use Rattle.command_inputs.specs.Giving.{Given};
ghost use Rattle.command_inputs.specs.Input.{IsInput, IsJobAt, IsReadAround, IsReadJob, IsSpelled};
ghost use Rattle.command_inputs.specs.inside.Steps.{IsLastRefusal, IsLastSection, IsProgramBefore};

use crate::bind_faults::convert_bind_fault_to_input_fault;
use crate::programs::check_input_program;
use crate::sections::{SEPARATOR, find_input_separator_line, split_into_three_input_sections};
use crate::settings::make_supplied_params_of_input_program;
use crate::table_lines::parse_input_table_line_per_declaration;
use binding::bind;
use command_faults::StreamFault;
use domains::TileSides;
use job::Job;
use netpbm::Picture;
use pipe_lang::parse;
use pipe_tree::{Item, Tree};
use std::alloc::Global;
use tables::Table;

/// The job of the program, its tables and the picture that the input spells. The job of a raw picture keeps the input's bytes. If
/// the picture is spelled in digits, they are freed once it is read.
pub fn read_input_job(
    alloc: Global,
    sides: TileSides,
    given: &[(String, i32)],
    input: Vec<u8>,
) -> Result<Job, StreamFault>
    ensures of_input { IfOk result (IsReadJob input.items given.now sides) }
    ensures job { IfOk result (λ job. IsJob (pipeline_in job)) }
    ensures small { IfOk result (λ job. IsSmall (pipeline_in job)) }
    ensures fault { IfErr result (IsFaultOf input.items given.now sides) }
    ensures memory { IfErr result (IsMemoryOnlyIf (HasShortText input.items)) }
{
    let (tree, tables, picture) = parse_input_program_tables_and_picture(alloc, input)?;
    check_and_bind_input_job(alloc, sides, given, tree, tables, picture)
}

/// The job of the program, its tables and the picture that an input of three sections spells; and the section between them, which
/// is not judged.
pub fn read_input_job_and_middle_section<'a>(
    alloc: Global,
    sides: TileSides,
    given: &[(String, i32)],
    input: &'a [u8],
) -> Result<(Job, &'a [u8]), StreamFault>
    ensures of_input { IfOk result
        (λ read. IsReadAround input.now given.now sides read.0 read.1.now) }
    ensures job { IfOk result (λ read. IsJob (pipeline_in read.0)) }
    ensures small { IfOk result (λ read. IsSmall (pipeline_in read.0)) }
    ensures fault { IfErr result (IsFaultAround input.now given.now sides) }
    ensures memory { IfErr result (IsMemoryOnlyIf (HasShortTextInThree input.now)) }
{
    let Some((text, middle, last)) = split_into_three_input_sections(input) else {
        return Err(StreamFault::NoSeparator);
    };
    let (tree, tables, picture) = parse_first_and_last_input_sections(alloc, text, last)?;
    let job = check_and_bind_input_job(alloc, sides, given, tree, tables, picture)?;
    Ok((job, middle))
}

/// The program, its tables and the picture that the input spells. A raw picture keeps the input's bytes, so that no sample is
/// copied.
fn parse_input_program_tables_and_picture(
    alloc: Global,
    input: Vec<u8>,
) -> Result<(Tree, Vec<Table>, Picture), StreamFault>
    ensures ok { IfOk result (λ read. IsInput input.items (content read.0) read.1.items read.2) }
    ensures fault { (given : List Given) (sides : Sides)
        → IfErr result (IsFaultOf input.items given sides) }
    ensures memory { IfErr result (IsMemoryOnlyIf (HasShortText input.items)) }
{
    let (tree, start) = parse_input_program_without_check(alloc, input.as_slice())?;
    let (tables, picture) = parse_last_input_section_in_place(alloc, tree.items(), input, start)?;
    Ok((tree, tables, picture))
}

/// The tables and the picture of the last section, which starts at this place of the input. A raw picture keeps the input's bytes.
fn parse_last_input_section_in_place(
    alloc: Global,
    items: &[Item],
    input: Vec<u8>,
    start: usize,
) -> Result<(Vec<Table>, Picture), StreamFault>
    requires { start ≤ length input.items }
    ensures ok { IfOk result (λ read. IsLastSection (drop start input.items)
        (length (tables_of (declarations items.now))) read.0.items read.1) }
    // Memory is refused only for the line of the next table, or for a picture.
    ensures fault { IfErr result (IsLastRefusal (drop start input.items)
        (length (tables_of (declarations items.now)))) }
{
    let (tables, length) = parse_input_table_line_per_declaration(
        alloc,
        items,
        &input.as_slice()[start..],
    )?;
    let picture = netpbm::read_picture_in_place(alloc, input, start + length)?;
    Ok((tables, picture))
}

/// The program of the first section, and where the last section starts.
fn parse_input_program_without_check(
    alloc: Global,
    input: &[u8],
) -> Result<(Tree, usize), StreamFault>
    ensures ok { IfOk result (λ read. IsProgramBefore input.now (content read.0) read.1) }
    ensures fault { (given : List Given) (sides : Sides)
        → IfErr result (IsFaultOf input.now given sides) }
    ensures memory { IfErr result (IsMemoryOnlyIf (HasShortText input.now)) }
{
    let Some(at) = find_input_separator_line(input) else {
        return Err(StreamFault::NoSeparator);
    };
    let tree = parse(alloc, &input[..at])?;
    Ok((tree, at + SEPARATOR.len()))
}

/// The program of a text, and the tables and the picture that the last section spells.
fn parse_first_and_last_input_sections(
    alloc: Global,
    text: &[u8],
    last: &[u8],
) -> Result<(Tree, Vec<Table>, Picture), StreamFault>
    ensures ok { IfOk result
        (λ read. IsSpelled text.now last.now (content read.0) read.1.items read.2) }
    ensures fault { IfErr result (IsSpellingFault text.now last.now) }
    ensures memory { IfErr result (IsMemoryOnlyIf (length text.now ≤ most_bytes)) }
{
    let tree = parse(alloc, text)?;
    let (tables, picture) = parse_last_input_section(alloc, tree.items(), last)?;
    Ok((tree, tables, picture))
}

/// The tables and the picture of the last section.
fn parse_last_input_section(
    alloc: Global,
    items: &[Item],
    last: &[u8],
) -> Result<(Vec<Table>, Picture), StreamFault>
    ensures ok { IfOk result (λ read. IsLastSection last.now
        (length (tables_of (declarations items.now))) read.0.items read.1) }
    // Memory is refused only for the line of the next table, or for a picture.
    ensures fault { IfErr result
        (IsLastRefusal last.now (length (tables_of (declarations items.now)))) }
{
    let (tables, start) = parse_input_table_line_per_declaration(alloc, items, last)?;
    let picture = netpbm::read(alloc, &last[start..])?;
    Ok((tables, picture))
}

/// The job of a program, its tables and a picture at the supplied values.
fn check_and_bind_input_job(
    alloc: Global,
    sides: TileSides,
    given: &[(String, i32)],
    tree: Tree,
    tables: Vec<Table>,
    picture: Picture,
) -> Result<Job, StreamFault>
    ensures made { IfOk result
        (λ job. IsJobAt (content tree) tables.items picture given.now sides (pipeline_in job)) }
    ensures text { IfOk result (λ job. program_text_in job ≡ canonical (content tree)) }
    ensures job { IfOk result (λ job. IsJob (pipeline_in job)) }
    ensures fault { IfErr result
        (IsJobFault (content tree) tables.items picture given.now sides) }
{
    let checked = check_input_program(alloc, tree)?;
    let params = make_supplied_params_of_input_program(alloc, &checked, given)?;
    match bind(alloc, checked, &params, tables, picture, sides) {
        Ok(job) => Ok(job),
        Err((program, _, _, fault)) => Err(convert_bind_fault_to_input_fault(&program, fault)),
    }
}
