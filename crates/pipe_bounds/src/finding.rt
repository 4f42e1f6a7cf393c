#![tactic(auto)]
//! The domains, bins and boxes of all stages.

ghost use Rattle.std.specs.Prelude.{◌≡◌, ◌<◌, IfOk, length};
ghost use Rattle.pipe_tree.specs.Tree.{declaration, declarations};
ghost use Rattle.pipe_bounds.specs.StageBounds.{HasBoxes, IsBoundsOf, AreBoundsOf};
ghost use Rattle.pipe_bounds.specs.inside.Taken.{AreDeclared, IsAnswer, IsPlace, TellsDomain, stage_domain_fault};

use crate::boxes::case_boxes;
use crate::domain::{IntervalFault, StageDomain, compute_stage_domain_of_item};
use crate::fault::BoundFault;
use crate::params::Params;
use crate::stage_bounds::StageBounds;
use domains::Area;
use pipe_checks::Symbol;
use pipe_tree::Item;
use std::alloc::{AllocError, Global};

fn stage_domain_fault(fault: IntervalFault, stage: usize) -> BoundFault
    ensures { result ≡ stage_domain_fault fault stage }
{
    match fault {
        IntervalFault::Empty => BoundFault::EmptyDomain(stage),
        IntervalFault::TooWide => BoundFault::DomainTooWide(stage),
    }
}

fn item_case_boxes(
    alloc: Global,
    params: &Params,
    domain: &Area,
    item: &Item,
) -> Result<Vec<Option<Area>>, AllocError>
    ensures { IfOk result (λ v. HasBoxes params.now (declaration item.now) domain.now v.items) }
{
    match item {
        Item::Func(func) => case_boxes(
            alloc,
            params,
            &func.row.name,
            domain,
            func.cases.case_list(),
        ),
        Item::Param(_) | Item::Image(_) | Item::Table(_) | Item::Accum(_) | Item::Output(_) => Ok(
            Vec::new(alloc),
        ),
    }
}

fn build_stage_bounds_from_stage_domain(
    alloc: Global,
    params: &Params,
    item: &Item,
    place: &StageDomain,
) -> Result<StageBounds, AllocError>
    requires { IsPlace params.now (declaration item.now) place.now }
    ensures { IfOk result (IsBoundsOf params.now (declaration item.now)) }
{
    let boxes = item_case_boxes(alloc, params, &place.domain, item)?;
    Ok(StageBounds::new(place.domain, place.bins, boxes))
}

/// The bounds of each stage, or the first fault of a domain.
pub(crate) fn collect_stage_bounds(
    alloc: Global,
    params: &Params,
    items: &[Item],
    stages: &[Symbol],
) -> Result<Vec<StageBounds>, BoundFault>
    requires { AreDeclared (declarations items.now) stages.now }
    ensures { IsAnswer (λ v. AreBoundsOf params.now (declarations items.now) stages.now v.items)
        (TellsDomain params.now (declarations items.now) stages.now) result }
{
    let mut found = Vec::new(alloc);
    for (stage, declared) in stages.iter().enumerate() {
        let item = &items[declared.item];
        match compute_stage_domain_of_item(params, item) {
            Ok(place) => {
                let bounds = build_stage_bounds_from_stage_domain(alloc, params, item, &place)?;
                found.push(bounds).map_err(AllocError::from)?;
            }
            Err(fault) => return Err(stage_domain_fault(fault, stage)),
        }
    }
    Ok(found)
}
