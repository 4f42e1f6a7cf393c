//! Facts that a node makes from the facts that it holds.

ghost use Rattle.fact_audit.specs.TrueFacts.{IsTrueFact};
ghost use Rattle.held_facts.specs.Making.{AreNeedsTrue};
ghost use Rattle.identity.specs.Keys.{ids_in};
ghost use Rattle.job.specs.Identity.{HasTileAt};
ghost use Rattle.job.specs.Kept.{pipeline_in};
ghost use Rattle.node_state.specs.Making.{IsMade, IsMakeFault};
ghost use Rattle.node_state.specs.States.{retires};
ghost use Rattle.std.specs.Prelude.{◌≡◌, ◌↔◌, Bool, IfErr, IfOk, IsTrue, List, true};

use crate::state::NodeState;
use catalog::Catalog;
use fact_audit::borrow_job_of_fact_key;
use fact_store::FactStore;
use grouping::Schedule;
use held_facts::MakeFault;
use identity::{JobId, Key};
use job::Job;
use tile_fact::Fact;

impl<S: FactStore> NodeState<S> {
    /// The fact of the key, made from held facts of the tiles that its tile needs by the schedule, which must be one of the key's
    /// job. If these facts are true, so is the result. The state does not change.
    ///
    /// # Errors
    ///
    /// The first of `Foreign`, `NoSuchTile`, `Retired` and `ScratchTooBig`; then the least need that is not ready, as `NeedMissing`,
    /// `NeedDisputed` or `NeedMisshapen`. Memory may be refused wherever there is such a tile of a job that is not retired.
    pub fn make(&self, catalog: &Catalog, schedule: &Schedule, key: &Key) -> Result<Fact, MakeFault>
        ensures key { IfOk result (λ fact. fact.key ≡ key.now) }
        ensures made { IfOk result (IsMade catalog.now self.now schedule.now.inlining) }
        ensures right { AreNeedsTrue catalog.now self.now.facts schedule.now.inlining key.now
            → IfOk result (IsTrueFact catalog.now) }
        ensures fault { IfErr result
            (IsMakeFault catalog.now self.now schedule.now.inlining key.now) }
    {
        if self.has_retired_job(&JobId::from_key(key)) {
            return Err(self.choose_make_fault_for_retired_key(catalog, key));
        }
        self.held.make(catalog, schedule, key)
    }

    // Why a tile of a retired job is not made.
    fn choose_make_fault_for_retired_key(&self, catalog: &Catalog, key: &Key) -> MakeFault
        requires { retires self.now (ids_in key.now) ≡ true }
        ensures { (inlining : List Bool) → IsMakeFault catalog.now self.now inlining key.now result }
    {
        match borrow_job_of_fact_key(catalog, key) {
            None => MakeFault::Foreign,
            Some(job) if has_tile_of_retired_key(job, key) => MakeFault::Retired,
            Some(_) => MakeFault::NoSuchTile,
        }
    }
}

// Whether the job has the function or accumulator and the tile of it that the key names.
fn has_tile_of_retired_key(job: &Job, key: &Key) -> bool
    ensures { IsTrue result ↔ HasTileAt (pipeline_in job.now) key.now.stage key.now.row key.now.col }
{
    match job.grid(usize::from(key.stage)) {
        Some(grid) => grid.tile(key.row, key.col).is_some(),
        None => false,
    }
}
