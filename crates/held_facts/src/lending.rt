//! Facts that a node lends.

ghost use Rattle.held_facts.specs.Answers.{AreHeld, IsLeastNotHeld, IsLendFault};
ghost use Rattle.held_facts.specs.inside.Searching.{is_first};
ghost use Rattle.held_facts.specs.Facts.{lent, holds, facts_in, same_key};
ghost use Rattle.std.specs.Option.{IfSome};
ghost use Rattle.std.specs.Prelude.{◌≡◌, ◌||◌, ◌&&◌, None, OnOk, IfOk, IfErr};
ghost use Rattle.tile_fact.specs.declared.fact.Fact.{Fact};

use crate::answers::LendFault;
use crate::facts::HeldFacts;
use fact_store::FactStore;
use identity::Key;
use std::alloc::AllocError;
use tile_fact::Fact;

impl<S: FactStore> HeldFacts<S> {
    /// All held facts of the keys, each once, rising; or the least key of which nothing is held. Keys may be in any order and
    /// repeated.
    pub fn lend(&self, keys: &[Key]) -> Result<Vec<Fact>, LendFault>
        ensures lent { IfOk result (λ facts. facts.items ≡ facts_in (lent self.now keys.now)) }
        ensures held { IfOk result (λ _. AreHeld self.now keys.now) }
        ensures fault { IfErr result (IsLendFault self.now keys.now) }
    {
        let state = self.lend_fact_set(keys)?;
        Ok(state.list_facts()?)
    }

    /// The state that holds exactly what [`lend`](HeldFacts::lend) answers.
    pub fn lend_fact_set(&self, keys: &[Key]) -> Result<HeldFacts<S>, LendFault>
        ensures lent { IfOk result (λ state. state ≡ lent self.now keys.now) }
        ensures held { IfOk result (λ _. AreHeld self.now keys.now) }
        ensures fault { IfErr result (IsLendFault self.now keys.now) }
    {
        if let Some(key) = self.find_least_key_not_held(keys) {
            return Err(LendFault::NotHeld(key));
        }
        let mut state = HeldFacts::new(self.alloc);
        for key in keys {
            state.add_facts_of_key_from_other(self, key)?;
        }
        Ok(state)
    }

    // The least of the keys of which nothing is held, if there is one.
    fn find_least_key_not_held(&self, keys: &[Key]) -> Option<Key>
        ensures found { IfSome result (IsLeastNotHeld self.now keys.now) }
        ensures none { result ≡ None → AreHeld self.now keys.now }
    {
        let mut least: Option<Key> = None;
        for key in keys {
            if self.count_facts_of_key(key) == 0 && is_below_least_key_not_held(key, &least) {
                least = Some(*key);
            }
        }
        least
    }

    // Adds the facts of a key that another state holds.
    fn add_facts_of_key_from_other(
        &mut self,
        other: &HeldFacts<S>,
        key: &Key,
    ) -> Result<(), AllocError>
        ensures { OnOk result ((f : Fact) →
            holds self.new f
            ≡ (holds self.old f || (holds other.now f && same_key key.now f.key))) }
    {
        for n in 0..other.count_facts_of_key(key) {
            if let Some(fact) = other.find_nth_fact_of_key(key, n) {
                self.hold_fact(fact.clone()?)?;
            }
        }
        Ok(())
    }
}

// Whether the key is below the one found before, if there is one.
fn is_below_least_key_not_held(key: &Key, found: &Option<Key>) -> bool
    ensures { result ≡ is_first key.now found.now }
{
    match found {
        None => true,
        Some(found) => key.cmp(found).is_lt(),
    }
}
