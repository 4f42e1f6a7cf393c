//! What a node holds of the tiles of a job.

ghost use Rattle.job.specs.Identity.{input_id};
ghost use Rattle.job.specs.Kept.{pipeline_in, program_id_in};
ghost use Rattle.held_facts.specs.HeldAnswers.{held_tiles, samples_in};
ghost use Rattle.held_facts.specs.inside.Judging.{tile_key};
ghost use Rattle.std.specs.Option.{option_map};
ghost use Rattle.std.specs.Prelude.{◌≡◌, ◌<◌};

use crate::facts::HeldFacts;
use fact_store::FactStore;
use identity::{InputId, Key, ProgramId};
use job::Job;
use tile_fact::{Body, Fact};
use tile_run::TileSource;

/// What a node holds, together with a job, whose identities are found once.
#[derive(Drop)]
pub(crate) struct HeldJobFacts<'a, S: FactStore> {
    pub(crate) state: &'a HeldFacts<S>,
    pub(crate) job: &'a Job,
    program: ProgramId,
    input: InputId,
    ghost program_is: { program ≡ program_id_in job.now },
    ghost input_is: { input ≡ input_id (pipeline_in job.now) },
}

impl<'a, S: FactStore> HeldJobFacts<'a, S> {
    pub(crate) fn new(state: &'a HeldFacts<S>, job: &'a Job) -> HeldJobFacts<'a, S>
        ensures state { result.state.now ≡ state.now }
        ensures job { result.job.now ≡ job.now }
    {
        HeldJobFacts {
            state,
            job,
            program: job.program_id(),
            input: job.input_id(),
        }
    }
}

impl<S: FactStore> HeldJobFacts<'_, S> {
    /// The key of a tile.
    pub(crate) fn build_held_tile_key(&self, stage: usize, row: u32, col: u32) -> Key
        requires { stage < 65536 }
        ensures { result ≡ tile_key (program_id_in self.now.job.now)
            (pipeline_in self.now.job.now) stage row col }
    {
        Key {
            program: self.program,
            input: self.input,
            stage: stage as u16,
            row,
            col,
        }
    }
}

impl<S: FactStore> TileSource for HeldJobFacts<'_, S> {
    ghost given = { λ held. held_tiles held.state.now (program_id_in held.job.now) (pipeline_in held.job.now) };

    fn borrow_tile(&self, stage: usize, row: u32, col: u32) -> Option<&[i32]> {
        self.job.grid(stage)?;
        let fact = self
            .state
            .find_nth_fact_of_key(&self.build_held_tile_key(stage, row, col), 0)?;
        borrow_held_fact_samples(fact)
    }
}

// The numbers of a tile.
fn borrow_held_fact_samples(fact: &Fact) -> Option<&[i32]>
    ensures { option_map (λ samples. samples.now) result ≡ samples_in fact.now.body }
{
    match fact.body() {
        Body::Tile(samples) => Some(samples.as_slice()),
        Body::Partial(_) => None,
    }
}
