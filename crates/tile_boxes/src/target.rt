#![tactic(auto)]
//! Targets, and the boxes of what they need.

ghost use Rattle.std.specs.Prelude.{◌≡◌, IfOk, IfSome, length, reverse, slice_get};
ghost use Rattle.std.specs.List.{flat_map};
ghost use Rattle.job.specs.Kept.{pipeline_in};
ghost use Rattle.tile_boxes.specs.Walks.{new_empty_boxes};

use crate::demands::{demand_body_reads, intersect_boxes};
use crate::inlining::InlinedStages;
use crate::order::order_stages_by_rank;
use domains::Area;
use job::{Job, StageKind};
use std::alloc::{AllocError, Global};

/// A stage of a job over a region of its domain.
#[derive(Clone, Copy)]
pub struct BoxWalk<'a> {
    pub job: &'a Job,
    pub schedule: &'a InlinedStages,
    pub stage: usize,
    pub region: Area,
}

impl BoxWalk<'_> {
    ghost use Rattle.job.specs.Kept.{pipeline_in};
    ghost use Rattle.tile_boxes.specs.Targets.{IsTarget, region_by, stage_demands, with_number, is_function_other_than_target, boxes};
    ghost use Rattle.tile_boxes.specs.Walks.{InDomainRanges, target_of, demanded_all, new_empty_boxes, cut_hull, walked_one};
    ghost use Rattle.tile_boxes.specs.Walks.{walked, numbered_hull};

    /// The bounding box of what is demanded of a stage, intersected with its domain.
    pub fn find_stage_box(&self, hulls: &[Option<Area>], number: usize) -> Option<Area>
        ensures is { result ≡ cut_hull (pipeline_in self.now.job.now).stages hulls.now number }
        ensures near { IfSome result InDomainRanges }
    {
        match (self.job.stage(number), hulls.get(number)) {
            (Some(stage), Some(Some(hull))) => intersect_boxes(hull, stage.domain()),
            _ => None,
        }
    }

    // The region of a stage that is in the target.
    fn find_stage_region(&self, hulls: &[Option<Area>], number: usize) -> Option<Area>
        requires target { IsTarget (target_of self.now) }
        ensures is { result ≡ region_by (target_of self.now)
            (cut_hull (pipeline_in self.now.job.now).stages hulls.now) number }
        ensures near { IfSome result InDomainRanges }
    {
        if number == self.stage {
            Some(self.region)
        } else if self.schedule.inlined(number) {
            self.find_stage_box(hulls, number)
        } else {
            None
        }
    }

    // Adds what a stage in the target demands.
    fn visit_stage(&self, hulls: &mut [Option<Area>], number: usize)
        requires target { IsTarget (target_of self.now) }
        ensures { hulls.new ≡ walked_one (target_of self.now) hulls.old number }
    {
        let region = self.find_stage_region(hulls, number);
        self.demand_stage_reads(hulls, number, region);
    }

    /// Adds what a stage demands over a region, if it has one.
    pub fn demand_stage_reads(
        &self,
        hulls: &mut [Option<Area>],
        number: usize,
        region: Option<Area>,
    )
        requires near { IfSome region InDomainRanges }
        ensures { hulls.new
            ≡ demanded_all hulls.old
            (stage_demands (slice_get (pipeline_in self.now.job.now).stages number) region) }
    {
        if let Some(region) = region {
            if let Some(stage) = self.job.stage(number) {
                demand_body_reads(hulls, stage.body(), &region);
            }
        }
    }

    fn visit_stages(&self, hulls: &mut [Option<Area>], numbers: &[usize])
        requires target { IsTarget (target_of self.now) }
        ensures { hulls.new ≡ walked (target_of self.now) hulls.old numbers.now }
    {
        for number in numbers {
            self.visit_stage(hulls, *number);
        }
    }

    // The bounding boxes of all that the stages in the target demand.
    pub(crate) fn find_bounding_boxes(
        &self,
        alloc: Global,
        order: &[usize],
    ) -> Result<Vec<Option<Area>>, AllocError>
        requires target { IsTarget (target_of self.now) }
        ensures { IfOk result (λ hulls. hulls.items
            ≡ walked (target_of self.now) (new_empty_boxes (pipeline_in self.now.job.now).stages)
            (reverse order.now)) }
    {
        let mut hulls = new_empty_boxes(alloc, self.job)?;
        let mut backward = order.to_vec(alloc)?;
        backward.reverse();
        self.visit_stages(&mut hulls, &backward);
        Ok(hulls)
    }

    pub(crate) fn is_function_other_than_target(&self, number: usize) -> bool
        ensures { result ≡ is_function_other_than_target (target_of self.now) number }
    {
        self.job.kind(number) == Some(StageKind::Function) && number != self.stage
    }

    // The box of a function other than the target, if it has one.
    fn find_needed_box(&self, hulls: &[Option<Area>], number: usize) -> Option<Area>
        ensures { with_number number result ≡ numbered_hull (target_of self.now) hulls.now number }
    {
        if self.is_function_other_than_target(number) {
            self.find_stage_box(hulls, number)
        } else {
            None
        }
    }

    // The functions other than the target that have a box, with their boxes, in this order.
    fn list_needed_boxes(
        &self,
        alloc: Global,
        hulls: &[Option<Area>],
        order: &[usize],
    ) -> Result<Vec<(usize, Area)>, AllocError>
        ensures { IfOk result (λ found. found.items
            ≡ flat_map (numbered_hull (target_of self.now) hulls.now) order.now) }
    {
        let mut found = Vec::new(alloc);
        for number in order {
            if let Some(area) = self.find_needed_box(hulls, *number) {
                found.push((*number, area))?;
            }
        }
        Ok(found)
    }

    /// The functions other than the target that have a box, with their boxes, in dependence order.
    ///
    /// # Errors
    ///
    /// Fails only where memory is refused.
    pub fn boxes(&self, alloc: Global) -> Result<Vec<(usize, Area)>, AllocError>
        requires target { IsTarget (target_of self.now) }
        ensures { IfOk result (λ found. found.items ≡ boxes (target_of self.now)) }
    {
        let order = order_stages_by_rank(alloc, self.job.stages())?;
        let hulls = self.find_bounding_boxes(alloc, &order)?;
        self.list_needed_boxes(alloc, &hulls, &order)
    }
}

/// Nothing is demanded of any stage yet.
///
/// # Errors
///
/// Fails only where memory is refused.
pub fn new_empty_boxes(alloc: Global, job: &Job) -> Result<Vec<Option<Area>>, AllocError>
    ensures none { IfOk result (λ hulls. hulls.items ≡ new_empty_boxes (pipeline_in job.now).stages) }
    ensures each { IfOk result (λ hulls. length hulls.items ≡ length (pipeline_in job.now).stages) }
{
    vec![in alloc; None; job.stages().len()]
}
