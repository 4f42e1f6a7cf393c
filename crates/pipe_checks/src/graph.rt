#![tactic(auto)]
//! Which stages each stage reads.

ghost use Rattle.std.specs.Prelude.{◌≡◌, ◌++◌, OnOk, IfOk, map, slice_get};
ghost use Rattle.std.specs.Option.{option_map};
ghost use Rattle.pipe_tree.specs.Tree.{view, branches, declaration, declarations};
ghost use Rattle.pipe_checks.specs.Accesses.{branch_accesses, otherwise_accesses, item_accesses, stage_read, links_of, links_from};

use crate::access::{Access, push_expr_accesses};
use crate::symbol::Symbol;
use pipe_tree::{Case, Expr, Item};
use std::alloc::{AllocError, Global};
use std::marker::Model;

/// The numbers of the stages that a stage reads, in the order of the text. Contracts see their list, and whether the stage is a
/// plane of the picture.
#[derive(Debug, Drop)]
pub(crate) struct StageLinks {
    is_plane: bool,
    reads: Vec<usize>,
}

impl Model for StageLinks {
    ghost use Rattle.pipe_checks.specs.StageLinks.{StageLinks as Seen};

    ghost Value = { Seen };

    ghost view = { λ l. record { is_plane = l.is_plane; reads = l.reads.items } };
}

impl StageLinks {
    pub(crate) fn is_plane(&self) -> bool
        ensures { result ≡ self.now.is_plane }
    {
        self.is_plane
    }

    /// The numbers of the stages that are read.
    pub(crate) fn reads(&self) -> &[usize]
        ensures { result.now ≡ self.now.reads }
    {
        &self.reads
    }
}

/// What is known of a stage, where the list has one of this number.
pub(crate) fn get_graph_rank_or_distance(
    list: &[Option<usize>],
    stage: usize,
) -> Option<Option<usize>>
    ensures { result ≡ slice_get list.now stage }
{
    list.get(stage).copied()
}

fn push_accesses_of_all_cases(
    found: &mut Vec<Access>,
    stages: &[Symbol],
    cases: &[Case],
) -> Result<(), AllocError>
    ensures { OnOk result
        (found.new.items ≡ found.old.items ++ branch_accesses stages.now (branches cases.now)) }
{
    for case in cases {
        push_expr_accesses(found, stages, &case.value)?;
    }
    Ok(())
}

fn push_otherwise_accesses(
    found: &mut Vec<Access>,
    stages: &[Symbol],
    otherwise: &Option<Expr>,
) -> Result<(), AllocError>
    ensures { OnOk result (found.new.items
        ≡ found.old.items ++ otherwise_accesses stages.now (option_map view otherwise.now)) }
{
    match otherwise {
        Some(value) => push_expr_accesses(found, stages, value),
        None => Ok(()),
    }
}

/// The reads and stencils of all expressions of an item.
pub(crate) fn collect_item_accesses(
    alloc: Global,
    stages: &[Symbol],
    item: &Item,
) -> Result<Vec<Access>, AllocError>
    ensures { IfOk result (λ v. v.items ≡ item_accesses stages.now (declaration item.now)) }
{
    let mut found = Vec::new(alloc);
    match item {
        Item::Func(func) => {
            push_accesses_of_all_cases(&mut found, stages, func.cases.case_list())?;
            push_otherwise_accesses(&mut found, stages, &func.otherwise)?;
        }
        Item::Accum(accum) => {
            push_expr_accesses(&mut found, stages, &accum.value)?;
            push_expr_accesses(&mut found, stages, &accum.bin)?;
        }
        Item::Param(_) | Item::Table(_) | Item::Image(_) | Item::Output(_) => {}
    }
    Ok(found)
}

fn collect_stages_of_accesses(alloc: Global, accesses: &[Access]) -> Result<Vec<usize>, AllocError>
    ensures { IfOk result (λ v. v.items ≡ map stage_read accesses.now) }
{
    accesses.iter().map(|access| access.stage()).collect(alloc)
}

fn build_stage_links(
    alloc: Global,
    items: &[Item],
    stages: &[Symbol],
    stage: &Symbol,
) -> Result<StageLinks, AllocError>
    ensures { IfOk result (λ l. l ≡ links_of (declarations items.now) stages.now stage.now) }
{
    let reads = match items.get(stage.item) {
        Some(item) => collect_stages_of_accesses(
            alloc,
            &collect_item_accesses(alloc, stages, item)?,
        )?,
        None => Vec::new(alloc),
    };
    Ok(StageLinks {
        is_plane: stage.kind.is_plane(),
        reads,
    })
}

/// What each stage reads.
pub(crate) fn build_read_graph(
    alloc: Global,
    items: &[Item],
    stages: &[Symbol],
) -> Result<Vec<StageLinks>, AllocError>
    ensures { IfOk result
        (λ v. v.items ≡ links_from (declarations items.now) stages.now stages.now) }
{
    let mut graph = Vec::new(alloc);
    for stage in stages {
        graph.push(build_stage_links(alloc, items, stages, stage)?)?;
    }
    Ok(graph)
}
