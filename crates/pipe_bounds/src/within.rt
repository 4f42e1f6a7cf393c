#![tactic(auto)]
//! Whether a program is in bounds at the values of its parameters.

ghost use Rattle.std.specs.Prelude.{◌≡◌, ℕ, OnOk, IfOk, IfErr, Err};
ghost use Rattle.pipe_bounds.specs.declared.fault.BoundFault.TheVariants.{ParamUnset};
ghost use Rattle.pipe_checks.specs.Checking.{tree_in};
ghost use Rattle.pipe_tree.specs.Tree.{declarations};
ghost use Rattle.pipe_tree.specs.Content.{content};
ghost use Rattle.pipe_bounds.specs.InBounds.{AreInBounds, IsBoundFault, IsFirstStage, IsInBounds};
ghost use Rattle.pipe_bounds.specs.inside.Taken.{AreDeclared, AreSoundItems, IsAnswer};
ghost use Rattle.pipe_bounds.specs.Within.{AreSet, IsFirstUnset};
ghost use Rattle.pipe_bounds.specs.StageBounds.{AreBoundsOf, domains_in};
ghost use Rattle.pipe_bounds.specs.Tables.{AreSpansOf};
ghost use Rattle.pipe_checks.specs.Names.{tables_of, stages_of};

use crate::fault::BoundFault;
use crate::finding::collect_stage_bounds;
use crate::params::Params;
use crate::reader::BoundsChecker;
use crate::stage_bounds::StageBounds;
use crate::table_spans::collect_table_bounds;
use domains::Span;
use pipe_checks::{Checked, Symbol};
use pipe_tree::Item;
use std::alloc::Global;

fn check_all_params_have_values(params: &Params) -> Result<(), BoundFault>
    ensures { AreSet params.now result }
{
    for (number, setting) in params.settings().iter().enumerate() {
        if setting.value.is_none() {
            return Err(BoundFault::ParamUnset(number));
        }
    }
    Ok(())
}

fn check_bounds_of_all_stage_reads(
    alloc: Global,
    params: &Params,
    items: &[Item],
    stages: &[Symbol],
    found: &[StageBounds],
) -> Result<(), BoundFault>
    requires declared { AreDeclared (declarations items.now) stages.now }
    requires sound { AreSoundItems stages.now (declarations items.now) }
    requires found { AreBoundsOf params.now (declarations items.now) stages.now found.now }
    ensures { IsAnswer
        (λ _. AreInBounds params.now (declarations items.now) stages.now (domains_in found.now))
        (IsFirstStage params.now (declarations items.now) stages.now (domains_in found.now))
        result }
{
    for (stage, declared) in stages.iter().enumerate() {
        let here = &found[stage];
        let reader = BoundsChecker {
            alloc,
            params,
            stages,
            found,
            stage,
            domain: here.domain(),
            boxes: here.boxes(),
        };
        reader.check_item_reads(&items[declared.item])?;
    }
    Ok(())
}

/// The bounds of a program.
#[derive(Debug, Drop)]
pub struct ProgramBounds {
    /// The bounds of each stage, by its number.
    pub stages: Vec<StageBounds>,
    /// The span of each table, by its number.
    pub tables: Vec<Span>,
}

/// The bounds of each stage and the span of each table, by their numbers, if the program is in bounds at the values of its
/// parameters. Else the first fault. Both are as `bounds` defines them.
pub fn find_program_bounds(
    alloc: Global,
    checked: &Checked,
    params: &Params,
) -> Result<ProgramBounds, BoundFault>
    ensures ok { OnOk result (IsInBounds params.now (content (tree_in checked.now))) }
    ensures found { IfOk result (λ b. AreBoundsOf params.now (content (tree_in checked.now))
        (stages_of (content (tree_in checked.now))) b.stages.items) }
    ensures spans { IfOk result (λ b. AreSpansOf params.now (content (tree_in checked.now))
        (tables_of (content (tree_in checked.now))) b.tables.items) }
    ensures fault { IfErr result (IsBoundFault params.now (content (tree_in checked.now))) }
    ensures unset { (n : ℕ) → IsFirstUnset params.now n → result ≡ Err (ParamUnset n) }
{
    check_all_params_have_values(params)?;
    let items = checked.tree().items();
    let tables = collect_table_bounds(alloc, params, items, checked.tables())?;
    let stages = checked.stages();
    let found = collect_stage_bounds(alloc, params, items, stages)?;
    check_bounds_of_all_stage_reads(alloc, params, items, stages, &found)?;
    Ok(ProgramBounds {
        stages: found,
        tables,
    })
}

/// Whether the program is in bounds at the values of its parameters. All parameters have values, each table has a span and each
/// stage a domain. At each point of a case's box, each read takes only points of the domain of what it reads. Else the first
/// fault: a parameter without a value; then a table that is empty or too wide; then a stage with such an interval; then a read
/// that leaves a domain. Of such reads the first by stage, case and read is reported, and rows before columns. The values are
/// those of `params`, which must belong to this program.
pub fn bounds(alloc: Global, checked: &Checked, params: &Params) -> Result<(), BoundFault>
    ensures ok { OnOk result (IsInBounds params.now (content (tree_in checked.now))) }
    ensures fault { IfErr result (IsBoundFault params.now (content (tree_in checked.now))) }
    ensures unset { (n : ℕ) → IsFirstUnset params.now n → result ≡ Err (ParamUnset n) }
{
    let _ = find_program_bounds(alloc, checked, params)?;
    Ok(())
}
