#![tactic(auto)]
//! What inlining a function would take.

ghost use Rattle.std.specs.Prelude.{◌≡◌, ◌<◌, ◌+◌, ◌*◌, ◌^◌, ◌++◌, ◌∷◌, [], nat_le, length, slice_get, slice_set, Some, None, All};
ghost use Rattle.std.specs.Prelude.{IfOk, OnOk, IfSome};
ghost use Rattle.std.specs.List.{flat_map, list_all};
ghost use Rattle.job.specs.Kept.{pipeline_in};
ghost use Rattle.tile_boxes.specs.Costs.{most_scratch};
ghost use Rattle.grouping.specs.Greedy.{group};
ghost use Rattle.grouping.specs.inside.Between.{IsNumberedTile, AreWhole};
ghost use Rattle.grouping.specs.inside.Crossed.{crossed};
ghost use Rattle.grouping.specs.inside.Standings.{areas_at, boxes_by_tile, AllStand};
ghost use Rattle.tile_boxes.specs.Targets.{region, box, demands_by, target_over};
ghost use Rattle.grouping.specs.inside.Trials.{grouping_of, find_kept_box, find_kept_scratch, count_box_points, IsCandidate, IsOverTile, IsTrialOf, AreTaken, IsRowOfBoxes};
ghost use Rattle.tile_boxes.specs.Walks.{InDomainRanges, demanded_all, target_of};

use crate::between::{NumberedTile, WholeReaderBoxes};
use crate::boxes::{GroupBoxes, SeparableBoxes};
use crate::greedy::{Grouper, count_group_tiles};
use domains::{Area, Span};
use job::Job;
use std::alloc::{AllocError, Global};
use tile_boxes::{BoxWalk, MOST_SCRATCH, list_tile_areas, new_empty_boxes};

/// A function that may be inlined, and its readers, from the last in dependence order to the first. `group` is the stored stage
/// in whose tiles all of these are computed.
#[derive(Drop)]
pub(crate) struct InlineCandidate {
    pub(crate) number: usize,
    pub(crate) readers: Vec<usize>,
    pub(crate) group: usize,
}

/// The boxes of a function in the tiles of its group, how many points they have together, and how many each tile then has in
/// scratch memory.
#[derive(Drop)]
pub(crate) struct InlineTrial {
    pub(crate) boxes: GroupBoxes,
    pub(crate) added: u64,
    pub(crate) scratch: Vec<u64>,
}

impl InlineTrial {
    /// Whether each tile fits in scratch memory.
    pub(crate) fn has_fitting_scratch_in_each_tile(&self) -> bool
        ensures { result ≡ list_all (λ n. nat_le n most_scratch) self.now.scratch.items }
    {
        self.scratch.iter().all(|points| *points <= MOST_SCRATCH)
    }
}

/// How many points the boxes in the tiles so far have together, and how many each of these tiles then has in scratch memory.
#[derive(Drop)]
struct TrialPoints {
    added: u64,
    scratch: Vec<u64>,
}

impl TrialPoints {
    // Adds a tile whose box has `points` points, and which had `before` points in scratch memory.
    fn add_tile(&mut self, points: u64, before: u64) -> Result<(), AllocError>
        requires added { self.old.added + points < 2 ^ 64 }
        requires scratch { before + points < 2 ^ 64 }
        ensures added { OnOk result (self.new.added ≡ self.old.added + points) }
        ensures scratch { OnOk result (self.new.scratch.items
            ≡ self.old.scratch.items ++ (before + points) ∷ []) }
    {
        self.added += points;
        self.scratch.push(before + points)?;
        Ok(())
    }
}

/// The same of the tiles so far, with the box in each.
#[derive(Drop)]
struct TrialBoxes {
    boxes: Vec<Option<Area>>,
    added: u64,
    scratch: Vec<u64>,
}

impl TrialBoxes {
    // No tiles so far, with capacity for `count` tiles.
    fn new(alloc: Global, count: usize) -> Result<TrialBoxes, AllocError>
        ensures boxes { IfOk result (λ t. t.boxes.items ≡ []) }
        ensures added { IfOk result (λ t. t.added ≡ 0) }
        ensures scratch { IfOk result (λ t. t.scratch.items ≡ []) }
    {
        Ok(TrialBoxes {
            boxes: Vec::with_capacity(alloc, count)?,
            added: 0,
            scratch: Vec::with_capacity(alloc, count)?,
        })
    }

    // Adds a tile with this box, which had `before` points in scratch memory.
    fn add_tile_box(&mut self, area: Option<Area>, before: u64) -> Result<(), AllocError>
        requires added { self.old.added + count_box_points area < 2 ^ 64 }
        requires scratch { before + count_box_points area < 2 ^ 64 }
        ensures boxes { OnOk result (self.new.boxes.items ≡ self.old.boxes.items ++ area ∷ []) }
        ensures added { OnOk result (self.new.added ≡ self.old.added + count_box_points area) }
        ensures scratch { OnOk result (self.new.scratch.items
            ≡ self.old.scratch.items ++ (before + count_box_points area) ∷ []) }
    {
        let points = count_box_points(&area);
        self.boxes.push(area)?;
        self.added += points;
        self.scratch.push(before + points)?;
        Ok(())
    }
}

fn count_box_points(area: &Option<Area>) -> u64
    ensures { result ≡ count_box_points area.now }
{
    match area {
        Some(area) => area.points(),
        None => 0,
    }
}

impl Grouper {
    /// What inlining a function would take.
    pub(crate) fn compute_inline_trial_of_candidate(
        &self,
        alloc: Global,
        job: &Job,
        candidate: &InlineCandidate,
    ) -> Result<InlineTrial, AllocError>
        requires stand { AllStand (pipeline_in job.now) (grouping_of self.now)
            self.now.standings.items }
        requires candidate { IsCandidate (pipeline_in job.now) (grouping_of self.now)
            candidate.now }
        ensures { IfOk result (IsTrialOf (pipeline_in job.now) self.now.inlining
            candidate.now.group candidate.now.number) }
    {
        let mut hulls = new_empty_boxes(alloc, job)?;
        match self.find_separable_boxes(alloc, job, candidate, &mut hulls)? {
            Some(spans) => self.compute_trial_from_separable_boxes(alloc, job, candidate, spans),
            None => {
                let tiles = list_areas_of_group_tiles(alloc, job, candidate.group)?;
                self.compute_trial_tile_by_tile(alloc, job, candidate, &tiles, &mut hulls)
            }
        }
    }

    // The boxes of the function, if those in the first row and the first column of tiles determine all.
    fn find_separable_boxes(
        &self,
        alloc: Global,
        job: &Job,
        candidate: &InlineCandidate,
        hulls: &mut [Option<Area>],
    ) -> Result<Option<SeparableBoxes>, AllocError>
        requires stand { AllStand (pipeline_in job.now) (grouping_of self.now)
            self.now.standings.items }
        requires candidate { IsCandidate (pipeline_in job.now) (grouping_of self.now)
            candidate.now }
        requires hulls { length hulls.old ≡ length (pipeline_in job.now).stages }
        ensures is { IfOk result (λ o. IfSome o (λ s. crossed s.rows.items s.cols.items
            ≡ boxes_by_tile (pipeline_in job.now) self.now.inlining candidate.now.group candidate.now.number)) }
        ensures room { length hulls.new ≡ length hulls.old }
    {
        match job.grid(candidate.group) {
            Some(grid) => self.find_separable_boxes_in_grid(alloc, job, candidate, &grid, hulls),
            None => Ok(None),
        }
    }

    // What inlining the function would take with these boxes.
    fn compute_trial_from_separable_boxes(
        &self,
        alloc: Global,
        job: &Job,
        candidate: &InlineCandidate,
        spans: SeparableBoxes,
    ) -> Result<InlineTrial, AllocError>
        requires stand { AllStand (pipeline_in job.now) (grouping_of self.now)
            self.now.standings.items }
        requires candidate { IsCandidate (pipeline_in job.now) (grouping_of self.now)
            candidate.now }
        requires boxes { crossed spans.rows.items spans.cols.items
            ≡ boxes_by_tile (pipeline_in job.now) self.now.inlining candidate.now.group candidate.now.number }
        ensures { IfOk result (IsTrialOf (pipeline_in job.now) self.now.inlining
            candidate.now.group candidate.now.number) }
    {
        let taken = self.tally_separable_boxes(alloc, job, candidate, &spans.rows, &spans.cols)?;
        Ok(InlineTrial {
            boxes: GroupBoxes::Crossed(spans),
            added: taken.added,
            scratch: taken.scratch,
        })
    }

    // What all tiles take where the function has these rows and columns in them.
    fn tally_separable_boxes(
        &self,
        alloc: Global,
        job: &Job,
        candidate: &InlineCandidate,
        rows: &[Span],
        cols: &[Span],
    ) -> Result<TrialPoints, AllocError>
        requires stand { AllStand (pipeline_in job.now) (grouping_of self.now)
            self.now.standings.items }
        requires candidate { IsCandidate (pipeline_in job.now) (grouping_of self.now)
            candidate.now }
        requires boxes { crossed rows.now cols.now
            ≡ boxes_by_tile (pipeline_in job.now) self.now.inlining candidate.now.group candidate.now.number }
        ensures { IfOk result (AreTaken (pipeline_in job.now) self.now.inlining candidate.now.group
            candidate.now.number (length rows.now * length cols.now)) }
    {
        let mut taken = TrialPoints {
            added: 0,
            scratch: Vec::with_capacity(alloc, count_group_tiles(job, candidate.group))?,
        };
        for (row, span) in rows.iter().enumerate() {
            self.tally_box_row(job, candidate, &mut taken, span, cols, row * cols.len())?;
        }
        Ok(taken)
    }

    // Adds a row of tiles, from this number on.
    fn tally_box_row(
        &self,
        job: &Job,
        candidate: &InlineCandidate,
        taken: &mut TrialPoints,
        rows: &Span,
        cols: &[Span],
        first: usize,
    ) -> Result<(), AllocError>
        requires stand { AllStand (pipeline_in job.now) (grouping_of self.now)
            self.now.standings.items }
        requires candidate { IsCandidate (pipeline_in job.now) (grouping_of self.now)
            candidate.now }
        requires taken { AreTaken (pipeline_in job.now) self.now.inlining candidate.now.group
            candidate.now.number first taken.old }
        requires row { IsRowOfBoxes (pipeline_in job.now) self.now.inlining candidate.now.group
            candidate.now.number first rows.now cols.now }
        ensures { OnOk result (AreTaken (pipeline_in job.now) self.now.inlining candidate.now.group
            candidate.now.number (first + length cols.now) taken.new) }
    {
        for (col, span) in cols.iter().enumerate() {
            let area = Area {
                rows: *rows,
                cols: *span,
            };
            taken.add_tile(
                area.points(),
                self.find_kept_scratch(candidate.group, first + col),
            )?;
        }
        Ok(())
    }

    // The same over the tiles of its group. `hulls` is a working buffer.
    fn compute_trial_tile_by_tile(
        &self,
        alloc: Global,
        job: &Job,
        candidate: &InlineCandidate,
        tiles: &[Area],
        hulls: &mut [Option<Area>],
    ) -> Result<InlineTrial, AllocError>
        requires stand { AllStand (pipeline_in job.now) (grouping_of self.now)
            self.now.standings.items }
        requires candidate { IsCandidate (pipeline_in job.now) (grouping_of self.now)
            candidate.now }
        requires tiles { tiles.now ≡ areas_at (pipeline_in job.now) candidate.now.group }
        requires hulls { length hulls.old ≡ length (pipeline_in job.now).stages }
        ensures { IfOk result (IsTrialOf (pipeline_in job.now) self.now.inlining
            candidate.now.group candidate.now.number) }
    {
        let mut trial = TrialBoxes::new(alloc, tiles.len())?;
        let mut wholes = WholeReaderBoxes::new(alloc, job, candidate.group, tiles.len())?;
        for (place, tile) in tiles.iter().enumerate() {
            let spot = NumberedTile { place, tile: *tile };
            let area = self.find_next_tile_box(job, candidate, tiles, &mut wholes, &spot, hulls)?;
            trial.add_tile_box(area, self.find_kept_scratch(candidate.group, place))?;
        }
        Ok(InlineTrial {
            boxes: GroupBoxes::Each(trial.boxes),
            added: trial.added,
            scratch: trial.scratch,
        })
    }

    // The box of the function in the next tile.
    fn find_next_tile_box(
        &self,
        job: &Job,
        candidate: &InlineCandidate,
        tiles: &[Area],
        wholes: &mut WholeReaderBoxes,
        spot: &NumberedTile,
        hulls: &mut [Option<Area>],
    ) -> Result<Option<Area>, AllocError>
        requires stand { AllStand (pipeline_in job.now) (grouping_of self.now)
            self.now.standings.items }
        requires candidate { IsCandidate (pipeline_in job.now) (grouping_of self.now)
            candidate.now }
        requires tiles { tiles.now ≡ areas_at (pipeline_in job.now) candidate.now.group }
        requires spot { IsNumberedTile (pipeline_in job.now) candidate.now.group spot.now }
        requires next { length wholes.old.boxes.items ≡ spot.now.place }
        requires wholes { AreWhole (pipeline_in job.now) self.now candidate.now
            wholes.old.boxes.items }
        requires hulls { length hulls.old ≡ length (pipeline_in job.now).stages }
        ensures is { IfOk result (λ o. o
            ≡ box (target_over (pipeline_in job.now) self.now.inlining candidate.now.group spot.now.tile)
            candidate.now.number) }
        ensures room { length hulls.new ≡ length hulls.old }
        ensures next { OnOk result (length wholes.new.boxes.items ≡ spot.now.place + 1) }
        ensures wholes { OnOk result (AreWhole (pipeline_in job.now) self.now candidate.now
            wholes.new.boxes.items) }
    {
        let between = self.derive_inner_box(job, candidate, tiles, wholes, spot);
        if between.is_some() {
            wholes.push_box(None)?;
            return Ok(between);
        }
        let area = self.find_box_in_tile(job, candidate, spot, hulls);
        let whole = self.accept_box_if_readers_whole(job, candidate, spot, &area);
        wholes.push_box(whole)?;
        Ok(area)
    }

    /// The box of the function in a tile of its group.
    pub(crate) fn find_box_in_tile(
        &self,
        job: &Job,
        candidate: &InlineCandidate,
        spot: &NumberedTile,
        hulls: &mut [Option<Area>],
    ) -> Option<Area>
        requires stand { AllStand (pipeline_in job.now) (grouping_of self.now)
            self.now.standings.items }
        requires candidate { IsCandidate (pipeline_in job.now) (grouping_of self.now)
            candidate.now }
        requires spot { IsNumberedTile (pipeline_in job.now) candidate.now.group spot.now }
        requires hulls { length hulls.old ≡ length (pipeline_in job.now).stages }
        ensures is { result
            ≡ box (target_over (pipeline_in job.now) self.now.inlining candidate.now.group spot.now.tile)
            candidate.now.number }
        ensures room { length hulls.new ≡ length hulls.old }
    {
        let walk = BoxWalk {
            job,
            schedule: &self.inlining,
            stage: candidate.group,
            region: spot.tile,
        };
        clear_trial_bounding_box(hulls, candidate.number);
        self.demand_reads_of_readers(hulls, &walk, &candidate.readers, spot.place);
        walk.find_stage_box(hulls, candidate.number)
    }

    // What these stages demand in a tile of their group.
    fn demand_reads_of_readers(
        &self,
        hulls: &mut [Option<Area>],
        walk: &BoxWalk<'_>,
        readers: &[usize],
        place: usize,
    )
        requires walk { IsOverTile self.now place walk.now }
        requires readers { All (λ r. r < length (pipeline_in walk.now.job.now).stages) readers.now }
        requires groups { All (λ r. group (grouping_of self.now) r ≡ walk.now.stage) readers.now }
        ensures { hulls.new
            ≡ demanded_all hulls.old
            (flat_map (demands_by (target_of walk.now) (box (target_of walk.now))) readers.now) }
    {
        for reader in readers {
            walk.demand_stage_reads(
                hulls,
                *reader,
                self.find_region_in_tile(walk, *reader, place),
            );
        }
    }

    // The region of a stage in a tile of its group.
    fn find_region_in_tile(&self, walk: &BoxWalk<'_>, reader: usize, place: usize) -> Option<Area>
        requires walk { IsOverTile self.now place walk.now }
        requires there { reader < length (pipeline_in walk.now.job.now).stages }
        requires group { group (grouping_of self.now) reader ≡ walk.now.stage }
        ensures is { result ≡ region (target_of walk.now) reader }
        ensures near { IfSome result InDomainRanges }
    {
        if reader == walk.stage {
            Some(walk.region)
        } else {
            self.find_kept_box(reader, place)
        }
    }

    // The box of a function that was inlined, in a tile of its group.
    pub(crate) fn find_kept_box(&self, number: usize, place: usize) -> Option<Area>
        ensures { result ≡ find_kept_box (slice_get self.now.standings.items number) place }
    {
        self.standings.get(number)?.get_tile_box(place)
    }

    // What a tile of a stored stage has in scratch memory.
    fn find_kept_scratch(&self, group: usize, place: usize) -> u64
        ensures { result ≡ find_kept_scratch (slice_get self.now.standings.items group) place }
    {
        match self.standings.get(group) {
            Some(standing) => standing.get_tile_scratch(place),
            None => 0,
        }
    }
}

// Nothing is demanded of this stage yet.
fn clear_trial_bounding_box(hulls: &mut [Option<Area>], number: usize)
    ensures { hulls.new ≡ slice_set hulls.old number None }
{
    if number < hulls.len() {
        hulls[number] = None;
    }
}

/// The areas of the tiles of a stage; planes have none.
pub(crate) fn list_areas_of_group_tiles(
    alloc: Global,
    job: &Job,
    number: usize,
) -> Result<Vec<Area>, AllocError>
    ensures { IfOk result (λ v. v.items ≡ areas_at (pipeline_in job.now) number) }
{
    match job.grid(number) {
        Some(grid) => list_tile_areas(alloc, &grid),
        None => Ok(Vec::new(alloc)),
    }
}
