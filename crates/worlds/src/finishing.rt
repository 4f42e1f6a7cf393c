//! The events that let a node hold all tiles of a job.

ghost use Rattle.catalog.specs.Entries.{entry_of, ids_of};
ghost use Rattle.gossip_core.specs.Finishing.{IsPlanned, lacked_work, makings};
ghost use Rattle.gossip_core.specs.Steps.{held};
ghost use Rattle.job.specs.Kept.{pipeline_in};
ghost use Rattle.node_state.specs.States.{retires};
ghost use Rattle.overlap_tiles.specs.Work.{find_key_over_scratch_limit};
ghost use Rattle.std.specs.Prelude.{◌≡◌, IfErr, IfOk, None, false};
ghost use Rattle.worlds.specs.Finishes.{Finishes, IsFinishFault};
ghost use Rattle.worlds.specs.declared.fault.FinishFault.TheVariants as faults;
ghost use Rattle.worlds.specs.inside.Making.{IsRoomFault};

use crate::fault::FinishFault;
use crate::world::World;
use catalog::compute_catalog_job_ids;
use fact_store::FactStore;
use gossip_events::Event;
use grouping::Schedule;
use held_facts::HeldFacts;
use identity::Key;
use job::Job;
use overlap_tiles::{find_key_over_scratch_limit, list_work_keys};
use std::alloc::{AllocError, Global};

impl<S: FactStore> World<S> {
    /// Events after which node n holds all tiles of the stored functions and accumulators of a job. For each of these tiles of
    /// which it holds nothing there are a making and the delivery of what was made. They are in the order in which they can be
    /// made. If they come next, none of them is refused, unless memory is; whatever was lost or restarted before.
    ///
    /// # Errors
    ///
    /// The first of `NoSuchNode`, `NoSuchJob`, `Retired` and `ScratchTooBig`, which is about the tiles of which nothing is held.
    /// Memory may be refused if the node and the job exist and the node has not retired the job.
    pub fn finish(&self, n: u8, job: usize) -> Result<Vec<Event>, FinishFault>
        ensures finishes { IfOk result (λ events. Finishes self.now n job events.items) }
        ensures fault { IfErr result (IsFinishFault self.now n job) }
    {
        let planned = self.find_job_and_schedule_to_finish_at_node(n, job)?;
        let keys = list_keys_to_finish_if_all_fit_scratch(self.alloc, &planned)?;
        Ok(list_make_and_deliver_events_to_finish(
            self.alloc,
            n,
            self.network.count_messages(),
            &keys,
        )?)
    }

    // The job, which node n has not retired, and what the node holds and how it makes its tiles.
    fn find_job_and_schedule_to_finish_at_node(
        &self,
        n: u8,
        job: usize,
    ) -> Result<WorldNodeJob<'_, S>, FinishFault>
        ensures planned { IfOk result (λ p. IsPlanned self.now.work n job
            (entry_of p.job.now) p.schedule.now.inlining) }
        ensures held { IfOk result (λ p. p.held.now ≡ (held self.now.network n).facts) }
        ensures live { IfOk result (λ p. retires (held self.now.network n)
            (ids_of (entry_of p.job.now)) ≡ false) }
        ensures there { IfOk result (λ _. IsFinishFault self.now n job faults.Memory) }
        ensures fault { IfErr result (IsFinishFault self.now n job) }
    {
        let Some(node) = self.network.node(n) else {
            return Err(FinishFault::NoSuchNode);
        };
        let Some(planned) = self.jobs.catalog.job(job) else {
            return Err(FinishFault::NoSuchJob);
        };
        let Some(schedule) = self.jobs.schedules[usize::from(n)].find_schedule_of_job(job) else {
            unreachable!();
        };
        if node.held.has_retired_job(&compute_catalog_job_ids(planned)) {
            return Err(FinishFault::Retired);
        }
        Ok(WorldNodeJob {
            held: node.held.held(),
            job: planned,
            schedule,
        })
    }
}

// What a node holds, a job, and the node's schedule for it.
#[derive(Clone, Copy)]
struct WorldNodeJob<'a, S: FactStore> {
    held: &'a HeldFacts<S>,
    job: &'a Job,
    schedule: &'a Schedule,
}

// The keys of the work tiles of which nothing is held, if each of these fits in scratch memory.
fn list_keys_to_finish_if_all_fit_scratch<S: FactStore>(
    alloc: Global,
    planned: &WorldNodeJob<'_, S>,
) -> Result<Vec<Key>, FinishFault>
    ensures keys { let p = planned.now in IfOk result (λ keys. keys.items
        ≡ lacked_work p.held.now (entry_of p.job.now) p.schedule.now.inlining) }
    ensures room { let p = planned.now in IfOk result (λ keys.
        find_key_over_scratch_limit (pipeline_in p.job.now) p.schedule.now.inlining keys.items ≡ None) }
    ensures fault { let p = planned.now in IfErr result
        (IsRoomFault p.held.now (entry_of p.job.now) p.schedule.now.inlining) }
{
    let keys = list_missing_keys_to_finish(alloc, planned.held, planned.job, planned.schedule)?;
    match find_key_over_scratch_limit(alloc, planned.job, planned.schedule, &keys)? {
        None => Ok(keys),
        Some(key) => Err(FinishFault::ScratchTooBig(key)),
    }
}

// The keys of the work tiles of which nothing is held.
fn list_missing_keys_to_finish<S: FactStore>(
    alloc: Global,
    held: &HeldFacts<S>,
    job: &Job,
    schedule: &Schedule,
) -> Result<Vec<Key>, AllocError>
    ensures { IfOk result (λ keys. keys.items
        ≡ lacked_work held.now (entry_of job.now) schedule.now.inlining) }
{
    let mut keys = list_work_keys(alloc, job, schedule)?;
    keys.retain(|key| held.count_facts_of_key(key) == 0);
    Ok(keys)
}

// A making of each key by the node, and its delivery, if `sent` messages were sent before.
fn list_make_and_deliver_events_to_finish(
    alloc: Global,
    n: u8,
    sent: usize,
    keys: &[Key],
) -> Result<Vec<Event>, AllocError>
    ensures { IfOk result (λ events. events.items ≡ makings n sent keys.now) }
{
    let mut events = Vec::new(alloc);
    let mut message = sent as u64;
    for key in keys {
        events.push(Event::Make { node: n, key: *key })?;
        events.push(Event::Deliver { node: n, message })?;
        message = message.checked_add(1).ok_or(AllocError)?;
    }
    Ok(events)
}
