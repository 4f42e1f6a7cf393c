//! The work of a farm: the tiles of a job that its workers make.

ghost use Rattle.std.specs.Prelude.{◌≡◌, All, IfOk, IfSome, IfNone, List, fold};
ghost use Rattle.catalog.specs.Entries.{Entry};
ghost use Rattle.farm_work.specs.Making.{IsNotMade};
ghost use Rattle.farm_work.specs.Readiness.{IsNoTile, IsReadiness};
ghost use Rattle.fact_store.specs.Facts.{nothing, with_fact};
ghost use Rattle.held_facts.specs.HeldAnswers.{HoldsTrueFacts};
ghost use Rattle.fact_audit.specs.TrueFacts.{IsTrueFact};
ghost use Rattle.job.specs.Kept.{pipeline_in, program_id_in};
ghost use Rattle.overlap_tiles.specs.Plans.{IsTilePlan};

use crate::lookup::KeyLookup;
use catalog::{Catalog, NamedCatalog};
use farm_turns::KeyReadiness;
use grouping::Schedule;
use held_facts::{HeldFacts, MakeFault};
use identity::Key;
use job::Job;
use overlap_tiles::{PlanFault, TilePlan};
use std::alloc::{AllocError, Global};
use std::marker::PhantomData;
use tile_fact::Fact;

/// A job of the catalog that the type names, a schedule of it, and the keys of its stored functions' and its accumulators' tiles
/// in dependence order.
#[derive(Drop)]
pub struct FarmWork<'a, C: NamedCatalog> {
    pub catalog: &'a Catalog,
    pub job: &'a Job,
    pub schedule: &'a Schedule,
    pub keys: &'a [Key],
    pub of: PhantomData<C>,
    ghost named: { catalog.now ≡ C.catalog },
}

impl<'a, C: NamedCatalog> FarmWork<'a, C> {
    /// The work of a job of the named catalog.
    pub fn new(
        catalog: &'a Catalog,
        job: &'a Job,
        schedule: &'a Schedule,
        keys: &'a [Key],
    ) -> FarmWork<'a, C>
        requires { catalog.now ≡ C.catalog }
        ensures job { result.job.now ≡ job.now }
        ensures schedule { result.schedule.now ≡ schedule.now }
        ensures keys { result.keys.now ≡ keys.now }
    {
        FarmWork {
            catalog,
            job,
            schedule,
            keys,
            of: PhantomData,
        }
    }

    /// What is to be done with a key. Its tile is to wait where there is none, where it does not fit into scratch memory, and
    /// where nothing is held of a tile that it needs.
    ///
    /// # Errors
    ///
    /// Fails only where memory is refused.
    pub fn find_tile_readiness<L: KeyLookup>(
        &self,
        alloc: Global,
        held: &L,
        key: &Key,
    ) -> Result<KeyReadiness<TilePlan<'a>>, AllocError>
        ensures { IfOk result (IsReadiness (L.may_tell held.now)
            (program_id_in self.now.job.now) (pipeline_in self.now.job.now)
            self.now.schedule.now.inlining key.now) }
    {
        if !held.lacks_any_key(&[*key]) {
            return Ok(KeyReadiness::Known);
        }
        let Some(plan) = self.plan_tile_if_it_exists_and_fits(alloc, key)? else {
            return Ok(KeyReadiness::Waiting);
        };
        if held.lacks_any_key(plan.needs()) {
            return Ok(KeyReadiness::Waiting);
        }
        Ok(KeyReadiness::Open(plan))
    }

    // How a tile is made, if there is such a tile and it fits into scratch memory.
    fn plan_tile_if_it_exists_and_fits(
        &self,
        alloc: Global,
        key: &Key,
    ) -> Result<Option<TilePlan<'a>>, AllocError>
        ensures plan { IfOk result (λ found. IfSome found (IsTilePlan
            (program_id_in self.now.job.now) (pipeline_in self.now.job.now)
            self.now.schedule.now.inlining key.now.stage key.now.row key.now.col)) }
        ensures none { IfOk result (λ found. IfNone found (IsNoTile
            (pipeline_in self.now.job.now) self.now.schedule.now.inlining key.now)) }
    {
        let stage = usize::from(key.stage);
        match TilePlan::of(alloc, self.job, self.schedule, stage, key.row, key.col) {
            Ok(plan) => Ok(Some(plan)),
            Err(PlanFault::Memory) => Err(AllocError),
            Err(PlanFault::NoSuchTile | PlanFault::ScratchTooBig) => Ok(None),
        }
    }

    /// The fact of a tile, made from true facts, if these are all that it needs. The fact is true too. It is none only if these
    /// facts make none.
    pub fn make_fact_from_true_facts(
        &self,
        alloc: Global,
        facts: &[Fact],
        key: &Key,
    ) -> Result<Option<Fact>, AllocError>
        requires { All (IsTrueFact C.catalog) facts.now }
        ensures is_true { IfOk result (λ made. IfSome made (IsTrueFact C.catalog)) }
        ensures key { IfOk result (λ made. IfSome made (λ fact. fact.key ≡ key.now)) }
        ensures none { IfOk result (λ made. IfNone made (IsNotMade
            C.catalog facts.now self.now.schedule.now.inlining key.now)) }
    {
        let held = hold_facts_for_farm_work(alloc, facts)?;
        match held.make(self.catalog, self.schedule, key) {
            Ok(fact) => Ok(Some(fact)),
            Err(MakeFault::Memory) => Err(AllocError),
            Err(_) => Ok(None),
        }
    }
}

// These facts as held facts, all of which are true if these are.
fn hold_facts_for_farm_work(alloc: Global, facts: &[Fact]) -> Result<HeldFacts, AllocError>
    ensures these { IfOk result (λ held. held ≡ fold with_fact nothing facts.now) }
    ensures is_true { (catalog : List Entry) → All (IsTrueFact catalog) facts.now
        → IfOk result (HoldsTrueFacts catalog) }
{
    let mut held = HeldFacts::new(alloc);
    for fact in facts {
        held.hold_fact(fact.clone()?)?;
    }
    Ok(held)
}
