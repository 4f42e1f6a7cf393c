#![tactic(auto)]
//! Boxes that follow from those in the first row and the first column of tiles.

ghost use Rattle.std.specs.Prelude.{◌≡◌, ◌++◌, ◌∷◌, true, length, All, IfOk, IfSome, Some};
ghost use Rattle.domains.specs.Tiles.{HasTile, tile_rows, tile_cols};
ghost use Rattle.job.specs.Kept.{pipeline_in};
ghost use Rattle.job.specs.Readers.{grid_at};
ghost use Rattle.grouping.specs.inside.Between.{find_group_tile_by_row_and_column, LiesAcross, HasWhole, AreSides};
ghost use Rattle.grouping.specs.inside.Crossed.{crossed};
ghost use Rattle.grouping.specs.inside.Standings.{AllStand, boxes_by_tile};
ghost use Rattle.grouping.specs.inside.Trials.{grouping_of, IsCandidate};

use crate::between::NumberedTile;
use crate::boxes::SeparableBoxes;
use crate::greedy::Grouper;
use crate::standing::StageStatus;
use crate::trial::InlineCandidate;
use domains::{Area, Grid, Span};
use job::Job;
use std::alloc::{AllocError, Global};

// The tile in a row and a column of tiles.
fn find_group_tile_by_row_and_column(grid: &Grid, row: u32, col: u32) -> Option<NumberedTile>
    ensures is { IfSome result (λ s. s ≡ find_group_tile_by_row_and_column grid.now row col) }
    ensures there { IfSome result (λ _. HasTile grid.now row col) }
{
    let tile = grid.tile(row, col)?;
    let place = row as usize * grid.tile_cols() as usize + col as usize;
    Some(NumberedTile { place, tile })
}

impl Grouper {
    /// The boxes of a function in the tiles of its group, if they follow from those in the first row and the first column of
    /// tiles. `hulls` is a working buffer.
    pub(crate) fn find_separable_boxes_in_grid(
        &self,
        alloc: Global,
        job: &Job,
        candidate: &InlineCandidate,
        grid: &Grid,
        hulls: &mut [Option<Area>],
    ) -> Result<Option<SeparableBoxes>, AllocError>
        requires stand { AllStand (pipeline_in job.now) (grouping_of self.now)
            self.now.standings.items }
        requires candidate { IsCandidate (pipeline_in job.now) (grouping_of self.now)
            candidate.now }
        requires grid { grid_at (pipeline_in job.now) candidate.now.group ≡ Some grid.now }
        requires hulls { length hulls.old ≡ length (pipeline_in job.now).stages }
        ensures is { IfOk result (λ o. IfSome o (λ s. crossed s.rows.items s.cols.items
            ≡ boxes_by_tile (pipeline_in job.now) self.now.inlining candidate.now.group candidate.now.number)) }
        ensures room { length hulls.new ≡ length hulls.old }
    {
        if !self.has_separable_readers(candidate, grid) {
            return Ok(None);
        }
        let Some(rows) = self.find_separable_box_rows(alloc, job, candidate, grid, hulls)? else {
            return Ok(None);
        };
        let Some(cols) = self.find_separable_box_columns(alloc, job, candidate, grid, hulls)? else {
            return Ok(None);
        };
        Ok(Some(SeparableBoxes { rows, cols }))
    }

    // The rows of the boxes in the first tile of each row of tiles, if all readers are whole in each of these tiles.
    fn find_separable_box_rows(
        &self,
        alloc: Global,
        job: &Job,
        candidate: &InlineCandidate,
        grid: &Grid,
        hulls: &mut [Option<Area>],
    ) -> Result<Option<Vec<Span>>, AllocError>
        requires stand { AllStand (pipeline_in job.now) (grouping_of self.now)
            self.now.standings.items }
        requires candidate { IsCandidate (pipeline_in job.now) (grouping_of self.now)
            candidate.now }
        requires grid { grid_at (pipeline_in job.now) candidate.now.group ≡ Some grid.now }
        requires hulls { length hulls.old ≡ length (pipeline_in job.now).stages }
        ensures sides { IfOk result (λ o. IfSome o (λ v. AreSides (pipeline_in job.now) self.now candidate.now
            (λ i. find_group_tile_by_row_and_column grid.now i 0) (λ a. a.rows) (tile_rows grid.now) v.items)) }
        ensures room { length hulls.new ≡ length hulls.old }
    {
        let mut rows = Vec::new(alloc);
        for i in 0..grid.tile_rows() {
            match self.find_box_if_readers_whole(job, candidate, grid, i, 0, hulls) {
                Some(area) => rows.push(area.rows)?,
                None => return Ok(None),
            }
        }
        Ok(Some(rows))
    }

    // The columns of the boxes in the first tile of each column of tiles, if all readers are whole in each of these tiles.
    fn find_separable_box_columns(
        &self,
        alloc: Global,
        job: &Job,
        candidate: &InlineCandidate,
        grid: &Grid,
        hulls: &mut [Option<Area>],
    ) -> Result<Option<Vec<Span>>, AllocError>
        requires stand { AllStand (pipeline_in job.now) (grouping_of self.now)
            self.now.standings.items }
        requires candidate { IsCandidate (pipeline_in job.now) (grouping_of self.now)
            candidate.now }
        requires grid { grid_at (pipeline_in job.now) candidate.now.group ≡ Some grid.now }
        requires hulls { length hulls.old ≡ length (pipeline_in job.now).stages }
        ensures sides { IfOk result (λ o. IfSome o (λ v. AreSides (pipeline_in job.now) self.now candidate.now
            (λ j. find_group_tile_by_row_and_column grid.now 0 j) (λ a. a.cols) (tile_cols grid.now) v.items)) }
        ensures room { length hulls.new ≡ length hulls.old }
    {
        let mut cols = Vec::new(alloc);
        for j in 0..grid.tile_cols() {
            match self.find_box_if_readers_whole(job, candidate, grid, 0, j, hulls) {
                Some(area) => cols.push(area.cols)?,
                None => return Ok(None),
            }
        }
        Ok(Some(cols))
    }

    // The box of the function in a tile of its group, if all readers are whole there.
    fn find_box_if_readers_whole(
        &self,
        job: &Job,
        candidate: &InlineCandidate,
        grid: &Grid,
        row: u32,
        col: u32,
        hulls: &mut [Option<Area>],
    ) -> Option<Area>
        requires stand { AllStand (pipeline_in job.now) (grouping_of self.now)
            self.now.standings.items }
        requires candidate { IsCandidate (pipeline_in job.now) (grouping_of self.now)
            candidate.now }
        requires grid { grid_at (pipeline_in job.now) candidate.now.group ≡ Some grid.now }
        requires hulls { length hulls.old ≡ length (pipeline_in job.now).stages }
        ensures is { IfSome result (HasWhole (pipeline_in job.now) self.now candidate.now
            (find_group_tile_by_row_and_column grid.now row col)) }
        ensures room { length hulls.new ≡ length hulls.old }
    {
        let spot = find_group_tile_by_row_and_column(grid, row, col)?;
        let area = self.find_box_in_tile(job, candidate, &spot, hulls);
        self.accept_box_if_readers_whole(job, candidate, &spot, &area)
    }

    // Whether the regions of all readers are separable into rows and columns of tiles.
    fn has_separable_readers(&self, candidate: &InlineCandidate, grid: &Grid) -> bool
        ensures { result ≡ true → All (LiesAcross self.now.standings.items candidate.now.group grid.now)
            candidate.now.readers.items }
    {
        candidate.readers.iter().all(|reader| self.is_separable_reader(
            candidate.group,
            grid,
            *reader,
        ))
    }

    fn is_separable_reader(&self, group: usize, grid: &Grid, reader: usize) -> bool
        ensures { result ≡ true → LiesAcross self.now.standings.items group grid.now reader }
    {
        if reader == group {
            return true;
        }
        match self.standings.get(reader) {
            Some(StageStatus::Inlined(boxes)) => {
                boxes.has_separable_boxes_of_grid_size(
                    grid.tile_rows() as usize,
                    grid.tile_cols() as usize,
                )
            }
            _ => false,
        }
    }
}
