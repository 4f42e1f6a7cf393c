#![tactic(auto)]
//! Boxes that follow from those in other tiles.

ghost use Rattle.std.specs.Prelude.{◌≡◌, ◌∷◌, ◌++◌, true, [], IfOk, OnOk, map, slice_get, All, IfSome, Some};
ghost use Rattle.std.specs.List.{list_all};
ghost use Rattle.job.specs.Kept.{pipeline_in};
ghost use Rattle.job.specs.Views.{body_view, case_view};
ghost use Rattle.tile_boxes.specs.Targets.{box, target_over};
ghost use Rattle.grouping.specs.inside.Between.{meets_case_box, meets_all_case_boxes, IsWhole, find_kept_region, IsBetween, IsNumberedTile, HasWhole, AreWhole};
ghost use Rattle.grouping.specs.inside.Standings.{areas_at, AllStand};
ghost use Rattle.grouping.specs.inside.Trials.{grouping_of, IsCandidate};

use crate::greedy::Grouper;
use crate::trial::InlineCandidate;
use domains::Area;
use job::{Body, Job, JobCase};
use std::alloc::{AllocError, Global};
use tile_boxes::intersect_boxes;

/// A tile of a stage: its number, row by row, and its area.
#[derive(Clone, Copy)]
pub(crate) struct NumberedTile {
    pub(crate) place: usize,
    pub(crate) tile: Area,
}

/// The known boxes of a function in tiles in which all of its readers are whole; how many tiles a row has; and the first tile of
/// the row of the next tile.
#[derive(Drop)]
pub(crate) struct WholeReaderBoxes {
    boxes: Vec<Option<Area>>,
    columns: usize,
    first: usize,
}

impl WholeReaderBoxes {
    /// Nothing is known of the tiles of a stage yet; there is capacity for `count` tiles.
    pub(crate) fn new(
        alloc: Global,
        job: &Job,
        group: usize,
        count: usize,
    ) -> Result<WholeReaderBoxes, AllocError>
        ensures { IfOk result (λ w. w.boxes.items ≡ []) }
    {
        Ok(WholeReaderBoxes {
            boxes: Vec::with_capacity(alloc, count)?,
            columns: job.grid(group).map_or(0, |grid| grid.tile_cols() as usize),
            first: 0,
        })
    }

    /// Adds a tile, with its box if that is known.
    pub(crate) fn push_box(&mut self, known: Option<Area>) -> Result<(), AllocError>
        ensures { OnOk result (self.new.boxes.items ≡ self.old.boxes.items ++ known ∷ []) }
    {
        self.boxes.push(known)?;
        if self.boxes.len().saturating_sub(self.first) >= self.columns {
            self.first = self.boxes.len();
        }
        Ok(())
    }

    // The box that is known of a tile.
    fn find_known_box(&self, place: usize) -> Option<Area>
        ensures { IfSome result (λ area. slice_get self.now.boxes.items place ≡ Some (Some area)) }
    {
        *self.boxes.get(place)?
    }
}

impl Grouper {
    /// The box of a function in a tile of its group, if it follows from those in the first tile of its row and in the first one
    /// of its column.
    pub(crate) fn derive_inner_box(
        &self,
        job: &Job,
        candidate: &InlineCandidate,
        tiles: &[Area],
        wholes: &WholeReaderBoxes,
        here: &NumberedTile,
    ) -> Option<Area>
        requires stand { AllStand (pipeline_in job.now) (grouping_of self.now)
            self.now.standings.items }
        requires candidate { IsCandidate (pipeline_in job.now) (grouping_of self.now)
            candidate.now }
        requires tiles { tiles.now ≡ areas_at (pipeline_in job.now) candidate.now.group }
        requires here { IsNumberedTile (pipeline_in job.now) candidate.now.group here.now }
        requires wholes { AreWhole (pipeline_in job.now) self.now candidate.now
            wholes.now.boxes.items }
        ensures { IfSome result (λ a. box
            (target_over (pipeline_in job.now) self.now.inlining candidate.now.group here.now.tile)
            candidate.now.number ≡ Some a) }
    {
        let left = find_group_tile_by_number(tiles, wholes.first)?;
        let top = find_group_tile_by_number(tiles, here.place.checked_sub(wholes.first)?)?;
        let one = wholes.find_known_box(left.place)?;
        let other = wholes.find_known_box(top.place)?;
        if self.has_reader_regions_of_left_and_top(candidate, here, &left, &top) {
            Some(Area {
                rows: one.rows,
                cols: other.cols,
            })
        } else {
            None
        }
    }

    // Whether in a tile the region of each reader has its rows in common with that in `left`, and its columns with that in `top`.
    fn has_reader_regions_of_left_and_top(
        &self,
        candidate: &InlineCandidate,
        here: &NumberedTile,
        left: &NumberedTile,
        top: &NumberedTile,
    ) -> bool
        ensures { result ≡ true → All
            (λ r. IsBetween (find_kept_region self.now.standings.items candidate.now.group here.now r)
            (find_kept_region self.now.standings.items candidate.now.group left.now r)
            (find_kept_region self.now.standings.items candidate.now.group top.now r))
            candidate.now.readers.items }
    {
        candidate.readers.iter().all(|reader| {
            is_separable_into_left_and_top(
                self.find_kept_region(candidate.group, here, *reader),
                self.find_kept_region(candidate.group, left, *reader),
                self.find_kept_region(candidate.group, top, *reader),
            )
        })
    }

    /// A box of the function in a tile, if there is one and the region of each reader there meets all cases of the reader.
    pub(crate) fn accept_box_if_readers_whole(
        &self,
        job: &Job,
        candidate: &InlineCandidate,
        spot: &NumberedTile,
        area: &Option<Area>,
    ) -> Option<Area>
        requires { area.now
            ≡ box (target_over (pipeline_in job.now) self.now.inlining candidate.now.group spot.now.tile)
            candidate.now.number }
        ensures { IfSome result (HasWhole (pipeline_in job.now) self.now candidate.now spot.now) }
    {
        if self.has_whole_readers(job, candidate, spot) {
            *area
        } else {
            None
        }
    }

    // Whether the region of each reader in a tile meets all cases of the reader.
    fn has_whole_readers(&self, job: &Job, candidate: &InlineCandidate, spot: &NumberedTile) -> bool
        ensures { result ≡ true → All
            (λ r. IsWhole (slice_get (pipeline_in job.now).stages r)
            (find_kept_region self.now.standings.items candidate.now.group spot.now r))
            candidate.now.readers.items }
    {
        candidate
            .readers
            .iter()
            .all(|reader| is_region_of_whole_reader(
                job,
                *reader,
                self.find_kept_region(candidate.group, spot, *reader),
            ))
    }

    // The region of a stage in a tile of its group, as it is kept.
    fn find_kept_region(&self, group: usize, spot: &NumberedTile, number: usize) -> Option<Area>
        ensures { result ≡ find_kept_region self.now.standings.items group spot.now number }
    {
        if number == group {
            Some(spot.tile)
        } else {
            self.find_kept_box(number, spot.place)
        }
    }
}

fn find_group_tile_by_number(tiles: &[Area], place: usize) -> Option<NumberedTile>
    ensures tile { IfSome result (λ spot. slice_get tiles.now place ≡ Some spot.tile) }
    ensures place { IfSome result (λ spot. spot.place ≡ place) }
{
    let tile = *tiles.get(place)?;
    Some(NumberedTile { place, tile })
}

fn is_separable_into_left_and_top(here: Option<Area>, left: Option<Area>, top: Option<Area>) -> bool
    ensures { result ≡ true → IsBetween here left top }
{
    match (here, left, top) {
        (Some(here), Some(left), Some(top)) => here.rows == left.rows && here.cols == top.cols,
        _ => false,
    }
}

fn is_region_of_whole_reader(job: &Job, number: usize, region: Option<Area>) -> bool
    ensures { result ≡ true → IsWhole (slice_get (pipeline_in job.now).stages number) region }
{
    match (job.stage(number), region) {
        (Some(stage), Some(region)) => meets_all_case_boxes(stage.body(), &region),
        _ => false,
    }
}

// Whether a region meets the box of each case that has one.
fn meets_all_case_boxes(body: &Body, region: &Area) -> bool
    ensures { result ≡ meets_all_case_boxes (body_view body.now) region.now }
{
    match body {
        Body::Plane(_) | Body::Accumulator(_) => true,
        Body::Function(function) => meets_case_box_of_each_listed_case(function.cases(), region),
    }
}

fn meets_case_box_of_each_listed_case(cases: &[JobCase], region: &Area) -> bool
    ensures { result ≡ list_all (λ p. meets_case_box region.now p.box) (map case_view cases.now) }
{
    for case in cases {
        if !meets_case_box(case, region) {
            return false;
        }
    }
    true
}

fn meets_case_box(case: &JobCase, region: &Area) -> bool
    ensures { result ≡ meets_case_box region.now (case_view case.now).box }
{
    match case.area() {
        Some(area) => intersect_boxes(area, region).is_some(),
        None => true,
    }
}
