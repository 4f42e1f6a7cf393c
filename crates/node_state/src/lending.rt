//! What a node lends of its state.

ghost use Rattle.held_facts.specs.Answers.{AreHeld, IsLendFault};
ghost use Rattle.node_state.specs.States.{facts_in, lent};
ghost use Rattle.std.specs.Prelude.{◌≡◌, IfOk, IfErr};

use crate::state::NodeState;
use fact_store::FactStore;
use held_facts::LendFault;
use identity::Key;
use tile_fact::Fact;

impl<S: FactStore> NodeState<S> {
    /// All held facts of the keys, each once, rising. Else the least key of which no fact is held, as of a retired job. Keys may
    /// be in any order and may be repeated.
    pub fn lend(&self, keys: &[Key]) -> Result<Vec<Fact>, LendFault>
        ensures lent { IfOk result (λ facts. facts.items ≡ facts_in (lent self.now keys.now)) }
        ensures held { IfOk result (λ _. AreHeld self.now.facts keys.now) }
        ensures fault { IfErr result (IsLendFault self.now.facts keys.now) }
    {
        self.held.lend(keys)
    }

    /// The state of the facts that [`lend`](NodeState::lend) returns and of all retired jobs.
    pub fn lend_state(&self, keys: &[Key]) -> Result<NodeState<S>, LendFault>
        ensures lent { IfOk result (λ state. state ≡ lent self.now keys.now) }
        ensures held { IfOk result (λ _. AreHeld self.now.facts keys.now) }
        ensures fault { IfErr result (IsLendFault self.now.facts keys.now) }
    {
        let held = self.held.lend_fact_set(keys)?;
        let retired = self.retired.copy(self.alloc)?;
        Ok(NodeState {
            alloc: self.alloc,
            held,
            retired,
        })
    }
}
