//! The jobs of a world, and how each node makes their tiles.

ghost use Rattle.catalog.specs.Entries.{StandsAt, ids_in};
ghost use Rattle.gossip_core.specs.Steps.{IsScheduleFor};
ghost use Rattle.std.specs.Prelude.{◌<◌, ◌≡◌, ℕ, IfErr, IfNone, IfOk, IfSome, length};
ghost use Rattle.worlds.specs.Worlds.{HasSchedules, IsPlannedWork};
ghost use Rattle.worlds.specs.inside.Making.{CannotBeMade, IsMadeBy};

use crate::schedules::NodeSchedules;
use catalog::Catalog;
use fact_store::FactStore;
use grouping::Schedule;
use identity::{JobId, Key};
use node_state::{MakeFault, NodeState};
use std::marker::Model;
use tile_fact::Fact;

/// The jobs of a world, and for each node a schedule for each of them.
#[derive(Debug, Drop)]
pub struct WorldJobs {
    pub catalog: Catalog,
    pub schedules: Vec<NodeSchedules>,
}

impl Model for WorldJobs {
    ghost use Rattle.gossip_core.specs.Steps.{WorldWork};
    ghost use Rattle.catalog.specs.Codes.{formula_code};
    ghost use Rattle.std.specs.Coded.{codes};
    ghost use Rattle.worlds.specs.Worlds.{IsPlannedWork};

    ghost Value = { WorldWork };

    ghost coded = { Prim.hlevel (codes, formula_code) };

    ghost view = { λ p. record { jobs = p.catalog; schedules = p.schedules.items } };

    ghost invariant = { λ p. IsPlannedWork (record {
      jobs = p.catalog;
      schedules = p.schedules.items;
    }) };
}

impl WorldJobs {
    /// These jobs and schedules.
    pub fn new(catalog: Catalog, schedules: Vec<NodeSchedules>) -> WorldJobs
        requires { HasSchedules (record { jobs = catalog; schedules = schedules.items }) }
        ensures same { result ≡ record { jobs = catalog; schedules = schedules.items } }
        ensures good { IsPlannedWork result }
    {
        // The contract of `job` specifies what each catalog is, for any index.
        let _ = catalog.job(0);
        WorldJobs { catalog, schedules }
    }

    /// Node n's schedule for the job whose tile the key names, if there is that job.
    pub fn find_schedule_of_key(&self, n: usize, key: &Key) -> Option<&Schedule>
        requires { n < length self.now.schedules }
        ensures some { IfSome result (λ s. IsScheduleFor self.now n key.now s.now.inlining) }
        ensures none { IfNone result
            ((i : ℕ) → ¬ (StandsAt self.now.jobs (ids_in key.now) i)) }
    {
        let job = self.catalog.find(&JobId::from_key(key))?;
        self.schedules[n].find_schedule_of_job(job)
    }

    /// The fact of the key, as node n makes it from a state.
    pub fn make_fact_at_node<S: FactStore>(
        &self,
        n: usize,
        state: &NodeState<S>,
        key: &Key,
    ) -> Result<Fact, MakeFault>
        requires { n < length self.now.schedules }
        ensures made { IfOk result (IsMadeBy self.now n state.now key.now) }
        ensures fault { IfErr result (CannotBeMade self.now n state.now key.now) }
    {
        match self.find_schedule_of_key(n, key) {
            Some(schedule) => state.make(&self.catalog, schedule, key),
            None => Err(MakeFault::Foreign),
        }
    }
}
