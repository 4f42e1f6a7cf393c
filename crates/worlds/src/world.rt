//! Worlds.

ghost use Rattle.gossip_core.specs.Headline.{Headline};
ghost use Rattle.gossip_core.specs.Histories.{Leads, start};
ghost use Rattle.gossip_core.specs.Steps.{Accepts, IsDone, Refuses};
ghost use Rattle.gossip_core.specs.Taking.{IsTaken, IsTakenAtKeep};
ghost use Rattle.gossip_core.specs.Truths.{AllTrue};
ghost use Rattle.gossip_events.specs.ScriptFaults.{IsScriptFault};
ghost use Rattle.gossip_events.specs.Scripts.{AreEvents, lines};
ghost use Rattle.gossip_events.specs.declared.event.Event.{Event as EventType};
ghost use Rattle.held_facts.specs.HeldFacts.{HoldsTrueFacts};
ghost use Rattle.std.specs.Option.{IfSome, option_map};
ghost use Rattle.std.specs.Prelude.{◌≡◌, ◌≤◌, ◌↔◌, ℕ, List, [], ◌∷◌, IfErr, IfOk, IsTrue, OnOk, false, length, true, slice_get, take};
ghost use Rattle.worlds.specs.Worlds.{IsCounted, IsRefusedWorld, RunsOn, StopsAt};

use crate::fault::WorldFault;
use crate::network::WorldNetwork;
use crate::planned::WorldJobs;
use crate::ran::Ran;
use crate::schedules::NodeSchedules;
use catalog::Catalog;
use fact_store::{FactStore, TableFacts};
use gossip_core::{Done, StepFault};
use gossip_events::{Event, ScriptFault, parse_script};
use node_state::NodeState;
use std::alloc::Global;
use std::marker::Model;

/// The most nodes of a world.
const MAX_NODES: usize = 16;

/// Nodes that make tiles of jobs, each by its own schedules, and retire jobs, send, merge, keep and restart. All facts that they
/// hold and keep, and all that were sent, are true. Only events change it.
#[derive(Drop)]
pub struct World<S: FactStore = TableFacts> {
    pub(crate) alloc: Global,
    pub(crate) jobs: WorldJobs,
    pub(crate) network: WorldNetwork<S>,
}

impl<S: FactStore> Model for World<S> {
    ghost use Rattle.catalog.specs.Codes.{formula_code};
    ghost use Rattle.node_state.specs.States.{coded_state};
    ghost use Rattle.std.specs.Coded.{codes};
    ghost use Rattle.worlds.specs.Worlds.{IsWorld, WorldView};

    ghost Value = { WorldView };

    ghost coded = { Prim.hlevel (codes, formula_code, coded_state) };

    ghost view = { λ w. record { work = w.jobs; network = w.network } };

    ghost invariant = { λ w. IsWorld w.jobs w.network };
}

impl<S: FactStore> World<S> {
    /// A world of as many nodes as there are lists of schedules; the nodes hold nothing. On error the jobs and the schedules are
    /// handed back.
    ///
    /// # Errors
    ///
    /// Fails if there are not 1 to 16 nodes, or if a node has more or fewer schedules than there are jobs. After that it fails
    /// if memory is refused.
    pub fn new(
        alloc: Global,
        catalog: Catalog,
        schedules: Vec<NodeSchedules>,
    ) -> Result<World<S>, (Catalog, Vec<NodeSchedules>, WorldFault)>
        ensures work { IfOk result (λ w. w.work
            ≡ record { jobs = catalog; schedules = schedules.items }) }
        ensures start { IfOk result (λ w. w.network ≡ start (length schedules.items)) }
        ensures led { IfOk result (λ w. Leads w.work (length schedules.items) [] [] w.network) }
        ensures truth { IfOk result (λ w. AllTrue w.work.jobs w.network) }
        ensures counted { IfOk result (λ w. IsCounted w.work) }
        ensures back { IfErr result (λ back. (back.0 ≡ catalog) × (back.1 ≡ schedules)) }
        ensures fault { IfErr result (λ back. IsRefusedWorld
            (record { jobs = catalog; schedules = schedules.items }) back.2) }
    {
        if !has_valid_world_node_and_schedule_counts(&catalog, &schedules) {
            return Err((catalog, schedules, WorldFault::BadCount));
        }
        match WorldNetwork::new(alloc, schedules.len()) {
            Ok(network) => Ok(World {
                alloc,
                jobs: WorldJobs::new(catalog, schedules),
                network,
            }),
            Err(_) => Err((catalog, schedules, WorldFault::Memory)),
        }
    }

    /// What the event does, if it is accepted. A refused event changes nothing.
    ///
    /// # Errors
    ///
    /// Fails with the first fault of the event.
    pub fn step(&mut self, event: &Event) -> Result<Done, StepFault>
        ensures done { OnOk result
            (Accepts self.old.work self.old.network event.now self.new.network) }
        ensures answer { IfOk result (IsDone self.old.network event.now self.new.network) }
        ensures refused { IfErr result
            (Refuses self.old.work self.old.network event.now self.new.network) }
        ensures led { (size : ℕ) (h accepted : List EventType)
            → Leads self.old.work size h accepted self.old.network → OnOk result
            (Leads self.new.work size (event.now ∷ h) (event.now ∷ accepted) self.new.network) }
        ensures work { self.new.work ≡ self.old.work }
        ensures truth { AllTrue self.new.work.jobs self.new.network }
    {
        self.network.apply_event(&self.jobs, event)
    }

    /// Processes the events in order. Refused ones are counted and skipped, but if memory is refused it stops.
    pub fn run(&mut self, events: &[Event]) -> Ran
        ensures led { (size : ℕ) (h accepted : List EventType)
            → Leads self.old.work size h accepted self.old.network
            → RunsOn self.new size h accepted (take result.done events.now) result.refused }
        ensures gone { result.done ≤ length events.now }
        ensures all { result.memory ≡ false → result.done ≡ length events.now }
        ensures stopped { result.memory ≡ true → StopsAt self.new events.now result.done }
        ensures work { self.new.work ≡ self.old.work }
        ensures truth { AllTrue self.new.work.jobs self.new.network }
        // Whatever list of events led here, the headline holds of it.
        ensures headline { (size : ℕ) (h accepted : List EventType)
            → Leads self.new.work size h accepted self.new.network
            → Headline self.new.work self.new.network accepted }
    {
        let _ = &self.network;
        let mut done = 0;
        let mut refused = 0;
        for event in events {
            match self.step(event) {
                Ok(_) => {}
                Err(fault) => {
                    if fault.is_memory() {
                        return Ran {
                            done,
                            refused,
                            memory: true,
                        };
                    }
                    refused += 1;
                }
            }
            done += 1;
        }
        Ran {
            done,
            refused,
            memory: false,
        }
    }

    /// What node n holds, if it exists. It allocates no memory.
    pub fn node(&self, n: u8) -> Option<&NodeState<S>>
        ensures held { option_map (λ s. s.now) result
            ≡ option_map (λ q. q.held) (slice_get self.now.network.nodes n) }
        ensures truth { IfSome result (λ s. HoldsTrueFacts self.now.work.jobs s.now.facts) }
        ensures took { (size : ℕ) (h accepted : List EventType)
            → Leads self.now.work size h accepted self.now.network
            → IfSome result (λ s. IsTaken self.now.network.messages accepted n s.now) }
    {
        match self.network.node(n) {
            Some(node) => Some(&node.held),
            None => None,
        }
    }

    /// What node n keeps, if it exists. It allocates no memory.
    pub fn kept(&self, n: u8) -> Option<&NodeState<S>>
        ensures kept { option_map (λ s. s.now) result
            ≡ option_map (λ q. q.kept) (slice_get self.now.network.nodes n) }
        ensures truth { IfSome result (λ s. HoldsTrueFacts self.now.work.jobs s.now.facts) }
        ensures took { (size : ℕ) (h accepted : List EventType)
            → Leads self.now.work size h accepted self.now.network
            → IfSome result (λ s. IsTakenAtKeep self.now.network.messages accepted n s.now) }
    {
        match self.network.node(n) {
            Some(node) => Some(&node.kept),
            None => None,
        }
    }

    /// The events that the lines of a text specify for the jobs of the world.
    ///
    /// # Errors
    ///
    /// Fails with the first fault of the text, as [`parse_script`] does.
    pub fn parse_script(&self, text: &[u8]) -> Result<Vec<Event>, ScriptFault>
        ensures events { IfOk result
            (λ events. AreEvents self.now.work.jobs (lines text.now) events.items) }
        ensures fault { IfErr result (IsScriptFault self.now.work.jobs text.now) }
    {
        parse_script(self.alloc, &self.jobs.catalog, text)
    }
}

/// Whether there are 1 to 16 nodes, each with a schedule for each job.
fn has_valid_world_node_and_schedule_counts(catalog: &Catalog, schedules: &[NodeSchedules]) -> bool
    ensures { IsTrue result
        ↔ IsCounted (record { jobs = catalog.now; schedules = schedules.now }) }
{
    let jobs = catalog.len();
    let nodes = schedules.len();
    1 <= nodes && nodes <= MAX_NODES && schedules.iter().all(|each| each.len() == jobs)
}
