//! Facts that a node makes from what it holds.

ghost use Rattle.std.specs.List.{flat_map};
ghost use Rattle.std.specs.Prelude.{◌≡◌, ◌∷◌, [], IfOk, IfErr};
ghost use Rattle.fact_audit.specs.Shapes.{FitsJob};
ghost use Rattle.fact_audit.specs.TrueFacts.{IsTrueFact};
ghost use Rattle.job.specs.Kept.{pipeline_in};
ghost use Rattle.held_facts.specs.Making.{AreNeedsTrue, IsMade, IsMakeFault};
ghost use Rattle.held_facts.specs.inside.Needing.{AreReady, IsNeedFault, IsNeedsFault};
ghost use Rattle.held_facts.specs.Facts.{facts_of};

use crate::answers::Known;
use crate::facts::HeldFacts;
use crate::held_tiles::HeldTiles;
use crate::local_bodies::compute_fact_body_from_held_tiles;
use crate::make_fault::MakeFault;
use catalog::Catalog;
use fact_audit::{borrow_job_of_fact_key, is_well_shaped_fact};
use fact_store::FactStore;
use grouping::Schedule;
use identity::Key;
use job::Job;
use overlap_tiles::TilePlan;
use std::alloc::AllocError;
use tile_fact::Fact;

impl<S: FactStore> HeldFacts<S> {
    /// The fact of the key, made from held facts of the tiles that its tile needs by the schedule, which should be one of the
    /// key's job. If these facts are true, so is the fact. Each of them is looked up once, before anything is computed, and the
    /// state is unchanged.
    ///
    /// # Errors
    ///
    /// The first of `Foreign`, `NoSuchTile` and `ScratchTooBig`; then the least need that is not ready, as `NeedMissing`,
    /// `NeedDisputed` or `NeedMisshapen`. Memory may be refused wherever there is such a tile.
    pub fn make(&self, catalog: &Catalog, schedule: &Schedule, key: &Key) -> Result<Fact, MakeFault>
        ensures key { IfOk result (λ fact. fact.key ≡ key.now) }
        ensures made { IfOk result (IsMade catalog.now self.now schedule.now.inlining) }
        ensures right { AreNeedsTrue catalog.now self.now schedule.now.inlining key.now
            → IfOk result (IsTrueFact catalog.now) }
        ensures fault { IfErr result
            (IsMakeFault catalog.now self.now schedule.now.inlining key.now) }
    {
        let Some(job) = borrow_job_of_fact_key(catalog, key) else {
            return Err(MakeFault::Foreign);
        };
        let stage = usize::from(key.stage);
        let plan = TilePlan::of(self.alloc, job, schedule, stage, key.row, key.col)?;
        let facts = self.copy_held_facts_of_needed_keys(job, plan.needs())?;
        let body = compute_fact_body_from_held_tiles(
            self.alloc,
            job,
            &plan,
            key,
            &HeldTiles { facts },
        )?;
        match Fact::new(*key, body) {
            Ok(fact) => Ok(fact),
            Err(_) => unreachable!(),
        }
    }

    // The held facts of the needs, in their order, if one that fits its tile is held of each.
    fn copy_held_facts_of_needed_keys(
        &self,
        job: &Job,
        needs: &[Key],
    ) -> Result<Vec<Fact>, MakeFault>
        ensures facts { IfOk result
            (λ facts. facts.items ≡ flat_map (facts_of self.now) needs.now) }
        ensures ready { IfOk result (λ _. AreReady self.now (pipeline_in job.now) needs.now) }
        ensures fault { IfErr result (IsNeedsFault self.now (pipeline_in job.now) needs.now) }
    {
        let mut facts = Vec::with_capacity(self.alloc, needs.len())?;
        for need in needs {
            let fact = self.copy_held_fact_of_needed_key(job, need)?;
            facts.push(fact).map_err(AllocError::from)?;
        }
        Ok(facts)
    }

    // The one held fact of the need, if it fits its tile.
    fn copy_held_fact_of_needed_key(&self, job: &Job, need: &Key) -> Result<Fact, MakeFault>
        ensures one { IfOk result (λ fact. facts_of self.now need.now ≡ fact ∷ []) }
        ensures fits { IfOk result (λ fact. FitsJob fact (pipeline_in job.now)) }
        ensures fault { IfErr result (IsNeedFault self.now (pipeline_in job.now) need.now) }
    {
        match self.classify_fact_count_of_key(need) {
            Known::Nothing => Err(MakeFault::NeedMissing(*need)),
            Known::Disputed => Err(MakeFault::NeedDisputed(*need)),
            Known::Retired => unreachable!(),
            Known::One => {
                let Some(fact) = self.find_nth_fact_of_key(need, 0) else {
                    unreachable!();
                };
                if !is_well_shaped_fact(job, fact) {
                    return Err(MakeFault::NeedMisshapen(*need));
                }
                Ok(fact.clone()?)
            }
        }
    }
}
