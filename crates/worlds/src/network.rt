//! The nodes of a world and their messages, and what events do to them.

ghost use Rattle.gossip_core.specs.Histories.{start};
ghost use Rattle.gossip_core.specs.Steps.{Accepts, IsDone, Refuses, WorldWork, with_message};
ghost use Rattle.gossip_core.specs.declared.done.Done.TheVariants as does;
ghost use Rattle.gossip_core.specs.declared.fault.StepFault.TheVariants as faults;
ghost use Rattle.gossip_events.specs.declared.event.Event.TheVariants.{Make, Retire, Send, Deliver, Merge, Keep, Restart};
ghost use Rattle.std.specs.Option.{option_map};
ghost use Rattle.worlds.specs.inside.Making.{refusal_of};
ghost use Rattle.std.specs.Prelude.{◌≡◌, IfErr, IfOk, OnErr, OnOk, length, slice_get};

use crate::node::{Message, WorldNode};
use crate::planned::WorldJobs;
use fact_store::FactStore;
use gossip_core::{Done, StepFault};
use gossip_events::Event;
use identity::{JobId, Key};
use node_state::{LendFault, MakeFault, NodeState};
use std::alloc::{AllocError, Global};
use std::marker::Model;

/// The nodes, and all messages that were ever sent.
#[derive(Drop)]
pub struct WorldNetwork<S: FactStore> {
    alloc: Global,
    nodes: Vec<WorldNode<S>>,
    messages: Vec<Message<S>>,
}

impl<S: FactStore> Model for WorldNetwork<S> {
    ghost use Rattle.gossip_core.specs.Networks.{Network, coded_network};

    ghost Value = { Network };

    ghost coded = { coded_network };

    ghost view = { λ w. record { nodes = w.nodes.items; messages = w.messages.items } };
}

impl<S: FactStore> WorldNetwork<S> {
    /// `size` nodes that hold nothing, and no message.
    pub fn new(alloc: Global, size: usize) -> Result<WorldNetwork<S>, AllocError>
        ensures { IfOk result (λ w. w ≡ start size) }
    {
        let mut nodes = Vec::with_capacity(alloc, size)?;
        for _ in 0..size {
            nodes.push(WorldNode {
                held: NodeState::new(alloc),
                kept: NodeState::new(alloc),
            })?;
        }
        Ok(WorldNetwork {
            alloc,
            nodes,
            messages: Vec::new(alloc),
        })
    }

    /// How many nodes there are.
    pub fn count_nodes(&self) -> usize
        ensures { result ≡ length self.now.nodes }
    {
        self.nodes.len()
    }

    /// How many messages were sent.
    pub fn count_messages(&self) -> usize
        ensures { result ≡ length self.now.messages }
    {
        self.messages.len()
    }

    /// The node of this number.
    pub fn node(&self, n: u8) -> Option<&WorldNode<S>>
        ensures { option_map (λ q. q.now) result ≡ slice_get self.now.nodes n }
    {
        self.nodes.as_slice().get(usize::from(n))
    }

    /// What the event does, if it is accepted.
    pub fn apply_event(&mut self, jobs: &WorldJobs, event: &Event) -> Result<Done, StepFault>
        requires { length jobs.now.schedules ≡ length self.old.nodes }
        ensures done { OnOk result (Accepts jobs.now self.old event.now self.new) }
        ensures answer { IfOk result (IsDone self.old event.now self.new) }
        ensures refused { IfErr result (Refuses jobs.now self.old event.now self.new) }
    {
        match event {
            Event::Make { node, key } => self.make_fact_as_message(jobs, usize::from(*node), key),
            Event::Retire { node, ids } => self.append_retirement_message_to_own_node(
                usize::from(*node),
                ids,
            ),
            Event::Send { node, to, keys } => {
                self.send_facts(usize::from(*node), usize::from(*to), keys.as_slice())
            }
            Event::Deliver { node, message } => {
                self.deliver_message(usize::from(*node), *message as usize)
            }
            Event::Merge { node, other } => self.merge(usize::from(*node), usize::from(*other)),
            Event::Keep { node } => self.keep_held_state(usize::from(*node)),
            Event::Restart { node } => self.restart_node(usize::from(*node)),
        }
    }

    fn make_fact_as_message(
        &mut self,
        jobs: &WorldJobs,
        n: usize,
        key: &Key,
    ) -> Result<Done, StepFault>
        requires { length jobs.now.schedules ≡ length self.old.nodes }
        ensures done { OnOk result (Accepts jobs.now self.old (Make n key.now) self.new) }
        ensures answer { IfOk result (IsDone self.old (Make n key.now) self.new) }
        ensures refused { IfErr result (Refuses jobs.now self.old (Make n key.now) self.new) }
    {
        if n >= self.nodes.len() {
            return Err(StepFault::NoSuchNode);
        }
        let node = &self.nodes[n];
        let fact = match jobs.make_fact_at_node(n, &node.held, key) {
            Ok(fact) => fact,
            Err(fault) => return Err(convert_make_fault_to_world_step_fault(fault)),
        };
        let mut state = NodeState::new(self.alloc);
        state.take(fact)?;
        self.append_message(n, state)
    }

    fn append_retirement_message_to_own_node(
        &mut self,
        n: usize,
        ids: &JobId,
    ) -> Result<Done, StepFault>
        ensures done { (u : WorldWork) → OnOk result (Accepts u self.old (Retire n ids.now) self.new) }
        ensures answer { IfOk result (IsDone self.old (Retire n ids.now) self.new) }
        ensures refused { (u : WorldWork)
            → IfErr result (Refuses u self.old (Retire n ids.now) self.new) }
    {
        if n >= self.nodes.len() {
            return Err(StepFault::NoSuchNode);
        }
        let mut state = NodeState::new(self.alloc);
        state.retire(ids)?;
        self.append_message(n, state)
    }

    fn send_facts(&mut self, n: usize, to: usize, keys: &[Key]) -> Result<Done, StepFault>
        ensures done { (u : WorldWork) → OnOk result (Accepts u self.old (Send n to keys.now) self.new) }
        ensures answer { IfOk result (IsDone self.old (Send n to keys.now) self.new) }
        ensures refused { (u : WorldWork)
            → IfErr result (Refuses u self.old (Send n to keys.now) self.new) }
    {
        if n >= self.nodes.len() || to >= self.nodes.len() {
            return Err(StepFault::NoSuchNode);
        }
        let node = &self.nodes[n];
        let state = match node.held.lend_state(keys) {
            Ok(state) => state,
            Err(LendFault::NotHeld(key)) => return Err(StepFault::NotHeld(key)),
            Err(LendFault::Memory) => return Err(StepFault::Memory),
        };
        self.append_message(to, state)
    }

    // Appends a message.
    fn append_message(&mut self, to: usize, state: NodeState<S>) -> Result<Done, StepFault>
        ensures sent { OnOk result (self.new ≡ with_message self.old to state) }
        ensures answer { IfOk result (λ d. d ≡ does.Message (length self.old.messages)) }
        ensures memory { IfErr result (λ fault. fault ≡ faults.Memory) }
        ensures unchanged { OnErr result (self.new ≡ self.old) }
    {
        let number = self.messages.len() as u64;
        self.messages.push(Message { to, state })?;
        Ok(Done::Message(number))
    }

    fn deliver_message(&mut self, n: usize, k: usize) -> Result<Done, StepFault>
        ensures done { (u : WorldWork) → OnOk result (Accepts u self.old (Deliver n k) self.new) }
        ensures answer { IfOk result (IsDone self.old (Deliver n k) self.new) }
        ensures refused { (u : WorldWork)
            → IfErr result (Refuses u self.old (Deliver n k) self.new) }
    {
        if n >= self.nodes.len() {
            return Err(StepFault::NoSuchNode);
        }
        if k >= self.messages.len() {
            return Err(StepFault::NoSuchMessage);
        }
        let message = &self.messages[k];
        if message.to != n {
            return Err(StepFault::WrongAddress);
        }
        let node = &mut self.nodes[n];
        let count = node.held.merge(&message.state)?;
        Ok(Done::New(count))
    }

    fn merge(&mut self, n: usize, other: usize) -> Result<Done, StepFault>
        ensures done { (u : WorldWork) → OnOk result (Accepts u self.old (Merge n other) self.new) }
        ensures answer { IfOk result (IsDone self.old (Merge n other) self.new) }
        ensures refused { (u : WorldWork) → IfErr result (Refuses u self.old (Merge n other) self.new) }
    {
        if n >= self.nodes.len() || other >= self.nodes.len() {
            return Err(StepFault::NoSuchNode);
        }
        let copy = self.nodes[other].held.copy()?;
        let node = &mut self.nodes[n];
        let count = node.held.merge(&copy)?;
        Ok(Done::New(count))
    }

    fn keep_held_state(&mut self, n: usize) -> Result<Done, StepFault>
        ensures done { (u : WorldWork) → OnOk result (Accepts u self.old (Keep n) self.new) }
        ensures answer { IfOk result (IsDone self.old (Keep n) self.new) }
        ensures refused { (u : WorldWork) → IfErr result (Refuses u self.old (Keep n) self.new) }
    {
        if n >= self.nodes.len() {
            return Err(StepFault::NoSuchNode);
        }
        let node = &mut self.nodes[n];
        node.kept = node.held.copy()?;
        Ok(Done::Kept)
    }

    fn restart_node(&mut self, n: usize) -> Result<Done, StepFault>
        ensures done { (u : WorldWork) → OnOk result (Accepts u self.old (Restart n) self.new) }
        ensures answer { IfOk result (IsDone self.old (Restart n) self.new) }
        ensures refused { (u : WorldWork) → IfErr result (Refuses u self.old (Restart n) self.new) }
    {
        if n >= self.nodes.len() {
            return Err(StepFault::NoSuchNode);
        }
        let node = &mut self.nodes[n];
        node.held = node.kept.copy()?;
        Ok(Done::Restarted)
    }
}

// The fault of a step whose node cannot make the fact.
fn convert_make_fault_to_world_step_fault(fault: MakeFault) -> StepFault
    ensures { result ≡ refusal_of fault }
{
    match fault {
        MakeFault::Memory => StepFault::Memory,
        _ => StepFault::Make(fault),
    }
}
