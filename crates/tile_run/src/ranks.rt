#![tactic(auto)]
//! The stored functions of a job, each after those that it reads.

ghost use Rattle.std.specs.Prelude.{◌≡◌, ◌+◌, ℕ, None, true, false, length, IfOk, IfErr};
ghost use Rattle.job.specs.Kept.{pipeline_in, program_id_in};
ghost use Rattle.job.specs.Pipeline.{rank_of};
ghost use Rattle.job.specs.Views.{stage_view};
ghost use Rattle.grouping.specs.Inlining.{IsScheduleOf};
ghost use Rattle.tile_boxes.specs.Order.{greatest_rank};
ghost use Rattle.tile_boxes.specs.Schedules.{is_inlined, is_function_body};
ghost use Rattle.tile_run.specs.inside.Running.{AreTilesOf, AreStored, StoredFit};
ghost use Rattle.tile_run.specs.Stored.{stored_tiles, GivesAllTiles};
ghost use Rattle.tile_run.specs.Work.{is_stored_function, first_too_big, IsRunFault};
ghost use Rattle.tile_sources.specs.KnownTiles.{AreTrue};

use crate::fault::RunFault;
use crate::room::{TiledStages, find_key_of_first_oversized_tile};
use crate::stage_run::StageRun;
use crate::stored::StoredTiles;
use domains::Grid;
use grouping::{Schedule, find_greatest_rank};
use job::{Job, Stage, StageKind};
use one_tile::{StageTiles, TileScratch};
use std::alloc::{AllocError, Global};
use std::thread::Threads;

// A job whose stored functions are made. Each of their tiles fits in scratch memory.
#[derive(Clone, Copy)]
struct RankedRun<'a> {
    job: &'a Job,
    schedule: &'a Schedule,
    ghost fit: { StoredFit (pipeline_in job.now) schedule.now.inlining },
}

impl StoredTiles {
    // Of `count` stages none is stored.
    fn new(alloc: Global, count: usize) -> Result<StoredTiles, AllocError>
        ensures length { IfOk result (λ stored. length stored.stages.items ≡ count) }
        ensures none { IfOk result
            (λ stored. (g i j : ℕ) → stored_tiles stored.stages.items g i j ≡ None) }
    {
        let mut stages = Vec::new(alloc);
        for _ in 0..count {
            stages.push(StageTiles {
                rows: Vec::new(alloc),
            })?;
        }
        Ok(StoredTiles { stages })
    }
}

impl RankedRun<'_> {
    // Whether a stage is a function that is not inlined.
    fn is_stored_function(&self, number: usize, stage: &Stage) -> bool
        ensures stored { result ≡ true → is_function_body (stage_view stage.now).body ≡ true
            × is_inlined self.now.schedule.now.inlining number ≡ false }
        ensures other { result ≡ false → is_function_body (stage_view stage.now).body ≡ true
            → is_inlined self.now.schedule.now.inlining number ≡ true }
    {
        stage.kind() == StageKind::Function && !self.schedule.inlined(number)
    }

    // The tiles of a stage, if it is a stored function.
    fn make_tiles_if_stage_is_stored(
        &self,
        rt: &(impl Threads + Sync),
        alloc: Global,
        stored: &StoredTiles,
        stage: usize,
        scratch: &mut TileScratch,
    ) -> Result<StageTiles, AllocError>
        requires stored { AreStored (pipeline_in self.now.job.now) self.now.schedule.now.inlining
            (rank_of (pipeline_in self.now.job.now).stages stage) stored.now.stages.items }
        ensures { IfOk result (AreTilesOf (pipeline_in self.now.job.now)
            self.now.schedule.now.inlining stage) }
    {
        match self.job.stage(stage) {
            Some(found) if self.is_stored_function(stage, found) => {
                let grid = Grid::new(*found.domain(), self.job.sides());
                let run = StageRun {
                    job: self.job,
                    schedule: self.schedule,
                    stored,
                    stage,
                    grid,
                };
                run.compute_tiles(rt, alloc, scratch)
            }
            _ => Ok(StageTiles {
                rows: Vec::new(alloc),
            }),
        }
    }

    // Stores the tiles of a rank, which are made from those of lower ranks.
    fn store_tiles_of_rank(
        &self,
        rt: &(impl Threads + Sync),
        alloc: Global,
        stored: &mut StoredTiles,
        rank: usize,
        scratch: &mut TileScratch,
    ) -> Result<(), AllocError>
        requires stored { AreStored (pipeline_in self.now.job.now) self.now.schedule.now.inlining
            rank stored.old.stages.items }
        ensures { IfOk result (λ done. AreStored (pipeline_in self.now.job.now)
            self.now.schedule.now.inlining (rank + 1) stored.new.stages.items) }
    {
        for number in 0..self.job.stages().len() {
            if self.job.rank(number) == Some(rank) {
                stored.stages[number] = self.make_tiles_if_stage_is_stored(
                    rt, alloc, stored, number, scratch,
                )?;
            }
        }
        Ok(())
    }

    // The tiles of all ranks up to this one.
    fn store_tiles_up_to_rank(
        &self,
        rt: &(impl Threads + Sync),
        alloc: Global,
        last: usize,
    ) -> Result<StoredTiles, AllocError>
        requires last { last ≡ greatest_rank (pipeline_in self.now.job.now).stages }
        ensures { IfOk result (λ stored. AreStored (pipeline_in self.now.job.now)
            self.now.schedule.now.inlining (greatest_rank (pipeline_in self.now.job.now).stages + 1)
            stored.stages.items) }
    {
        let mut stored = StoredTiles::new(alloc, self.job.stages().len())?;
        let mut scratch = TileScratch::new(alloc);
        for rank in 0..last {
            self.store_tiles_of_rank(rt, alloc, &mut stored, rank, &mut scratch)?;
        }
        self.store_tiles_of_rank(rt, alloc, &mut stored, last, &mut scratch)?;
        Ok(stored)
    }
}

/// All tiles of the stored functions of a job: those of a rank after those of lower ranks. Several threads compute those of
/// a function together, if there is work for more than one.
///
/// # Errors
///
/// Fails if a tile takes too much scratch memory, with the first one and before any is made; and if memory is refused.
pub fn run_all(
    rt: &(impl Threads + Sync),
    alloc: Global,
    job: &Job,
    schedule: &Schedule,
) -> Result<StoredTiles, RunFault>
    requires schedule { IsScheduleOf (pipeline_in job.now) schedule.now }
    ensures all { IfOk result (λ stored. GivesAllTiles (pipeline_in job.now) schedule.now.inlining
        (stored_tiles stored.stages.items)) }
    ensures values { IfOk result
        (λ stored. AreTrue (pipeline_in job.now) (stored_tiles stored.stages.items)) }
    ensures fits { IfOk result (λ stored. first_too_big (pipeline_in job.now) schedule.now.inlining
        (is_stored_function (pipeline_in job.now) schedule.now.inlining) ≡ None) }
    ensures fault { IfErr result (IsRunFault (program_id_in job.now) (pipeline_in job.now)
        schedule.now.inlining (is_stored_function (pipeline_in job.now) schedule.now.inlining)) }
{
    if let Some(key) = find_key_of_first_oversized_tile(
        alloc,
        job,
        schedule,
        TiledStages::Functions,
    )? {
        return Err(RunFault::ScratchTooBig(key));
    }
    let run = RankedRun { job, schedule };
    let stored = run.store_tiles_up_to_rank(rt, alloc, find_greatest_rank(job.stages()))?;
    Ok(stored)
}
