#![tactic(auto)]
//! The plan of a tile.

ghost use Rattle.std.specs.Prelude.{◌≡◌, ℕ, Bool, List, map, IfOk, IfErr};
ghost use Rattle.job.specs.Kept.{pipeline_in, program_id_in};
ghost use Rattle.job.specs.Pipeline.{Pipeline};
ghost use Rattle.overlap_tiles.specs.Needs.{key_tile};
ghost use Rattle.overlap_tiles.specs.Plans.{IsTileLayout, IsTilePlan, IsPlanFault, layout_of};
ghost use Rattle.overlap_tiles.specs.Views.{step_view};

use crate::fault::PlanFault;
use crate::keys::list_keys_of_tile_needs;
use crate::layout::TileLayout;
use crate::steps::TileStep;
use grouping::Schedule;
use identity::Key;
use job::Job;
use std::alloc::Global;
use std::marker::Model;

/// How one tile is computed: the stored tiles that it needs, what is computed in which order, and where each step but the last
/// lies in scratch memory. It is made by one schedule. Only `of` makes one.
#[derive(Debug, Drop)]
pub struct TilePlan<'a> {
    layout: TileLayout<'a>,
    needs: Vec<Key>,
    ghost tied: { map key_tile needs.items ≡ layout.needs },
}

impl<'a> Model for TilePlan<'a> {
    ghost use Rattle.overlap_tiles.specs.Plans.{Plan, with_keys};

    ghost Value = { Plan };

    ghost view = { λ p. with_keys p.needs.items p.layout };
}

impl<'a> TilePlan<'a> {
    /// The plan of the tile in this row and this column of a function's or accumulator's grid. Its keys contain the identity of
    /// the input. If the job does not keep that identity (`Job::cache_input_id`), the picture is hashed for each plan.
    ///
    /// # Errors
    ///
    /// Fails where there is no such tile, where the boxes of what is inlined have more points together than
    /// `grouping::MOST_SCRATCH`, and where memory is refused.
    pub fn of(
        alloc: Global,
        job: &Job,
        schedule: &'a Schedule,
        stage: usize,
        row: u32,
        col: u32,
    ) -> Result<TilePlan<'a>, PlanFault>
        ensures plan { IfOk result
            (IsTilePlan (program_id_in job.now)
            (pipeline_in job.now) schedule.now.inlining stage row col) }
        ensures fault { IfErr result
            (IsPlanFault (pipeline_in job.now) schedule.now.inlining stage row col) }
    {
        let layout = TileLayout::new(alloc, job, schedule, stage, row, col)?;
        let needs = list_keys_of_tile_needs(alloc, job, layout.needs())?;
        Ok(TilePlan { layout, needs })
    }

    /// The plan without identities, which is the layout of the same tile.
    pub fn layout(&self) -> &TileLayout<'a>
        ensures same { result.now ≡ layout_of self.now }
        ensures tile { (program : List ℕ) (job : Pipeline) (inlining : List Bool) (g i j : ℕ)
            → IsTilePlan program job inlining g i j self.now
            → IsTileLayout job inlining g i j result.now }
    {
        &self.layout
    }

    /// The tiles of stored functions that it reads, each once, in the order of keys.
    pub fn needs(&self) -> &[Key]
        ensures { result.now ≡ self.now.needs }
    {
        &self.needs
    }

    /// What is computed, in this order: the inlined stages that it needs, each over its box, and at last the tile.
    pub fn steps(&self) -> &[TileStep]
        ensures { map step_view result.now ≡ self.now.steps }
    {
        self.layout.steps()
    }

    /// The number of points that are computed.
    pub fn points(&self) -> u64
        ensures { result ≡ self.now.points }
    {
        self.layout.points()
    }

    /// Where the steps but the last lie in scratch memory, each by its start and its length. In their order each starts at the
    /// least place where it meets no range that is still to be read.
    pub fn ranges(&self) -> &[(usize, usize)]
        ensures { result.now ≡ self.now.ranges }
    {
        self.layout.ranges()
    }

    /// The number of points of the scratch memory.
    pub fn scratch(&self) -> usize
        ensures { result ≡ self.now.scratch }
    {
        self.layout.scratch()
    }
}
