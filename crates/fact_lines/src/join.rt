//! What the fact files of a text hold together.

ghost use Rattle.std.specs.List.Sorted.{IsStrictlySortedBy};
ghost use Rattle.std.specs.Prelude.{◌≡◌, not, filter, IfOk, IfErr};
ghost use Rattle.fact_lines.specs.Texts.{IsJoin, lines};
ghost use Rattle.fact_lines.specs.Faults.{IsFault};
ghost use Rattle.fact_lines.specs.inside.Gathering.{Gathers};
ghost use Rattle.identity.specs.Keys.{ids_cmp};
ghost use Rattle.tile_fact.specs.FactFile.{is_retired};

use crate::contents::FactFileContents;
use crate::fault::FactLinesFault;
use crate::line::add_fact_file_line;
use distinct::sort_without_repeats;
use identity::JobId;
use std::alloc::Global;
use tile_fact::Fact;

/// The retired jobs of all fact files of the text and their facts of other jobs, both rising, each once. Otherwise the first
/// fault of the text.
///
/// Each line ends with LF or at the end of the text. It is one file in hexadecimal digits of either case, or empty and skipped. A
/// text of no file has neither. A line's bad digits are found without any memory.
pub fn join_fact_file_lines(alloc: Global, text: &[u8]) -> Result<FactFileContents, FactLinesFault>
    // The lists are what the text's files hold together.
    ensures found { IfOk result (λ contents. IsJoin text.now contents.retired.items contents.facts.items) }

    // A fault is the first one of the text, at its line; memory is refused only for a line that has no fault before it.
    ensures fault { IfErr result (IsFault text.now) }
{
    let FactFileContents {
        mut retired,
        mut facts,
    } = collect_contents_of_fact_file_lines(alloc, text)?;
    sort_without_repeats(&mut retired);
    sort_without_repeats(&mut facts);
    remove_facts_retired_by_fact_lines(&retired, &mut facts);
    Ok(FactFileContents { retired, facts })
}

// The retired jobs and the facts of all files in the order of the text.
fn collect_contents_of_fact_file_lines(
    alloc: Global,
    text: &[u8],
) -> Result<FactFileContents, FactLinesFault>
    ensures found { IfOk result
        (λ contents. Gathers (lines text.now) contents.retired.items contents.facts.items) }
    ensures fault { IfErr result (IsFault text.now) }
{
    let mut contents = FactFileContents {
        retired: Vec::new(alloc),
        facts: Vec::new(alloc),
    };
    let mut number = 0;
    for line in text.split(|byte| *byte == b'\n') {
        number += 1;
        add_fact_file_line(alloc, number, line, &mut contents)?;
    }
    Ok(contents)
}

// Removes the facts of these jobs, which rise, from the list.
fn remove_facts_retired_by_fact_lines(jobs: &[JobId], facts: &mut Vec<Fact>)
    ensures { IsStrictlySortedBy ids_cmp jobs.now
        → facts.new.items ≡ filter (λ fact. not (is_retired jobs.now fact)) facts.old.items }
{
    facts.retain(|fact| !is_fact_retired_by_fact_lines(jobs, fact));
}

// Whether the fact is of one of these jobs, if they rise.
fn is_fact_retired_by_fact_lines(jobs: &[JobId], fact: &Fact) -> bool
    ensures { IsStrictlySortedBy ids_cmp jobs.now → result ≡ is_retired jobs.now fact.now }
{
    jobs.binary_search(&JobId::from_key(fact.key())).is_ok()
}
