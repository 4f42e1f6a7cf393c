//! What tells which keys nothing is held of.

use fact_store::FactStore;
use held_facts::HeldFacts;
use identity::Key;

/// What tells which keys nothing is held of: held facts, or a node that others call too.
pub trait KeyLookup {
    ghost use Rattle.identity.specs.declared.key.Key.{Key as KeyOf};
    ghost use Rattle.std.specs.Prelude.{Bool, List};

    /// This may be told of the keys: that nothing is held of one of them, or that something is held of each.
    ghost may_tell: { Self → List KeyOf → Bool → Type 0 };

    /// Whether nothing is held of one of the keys.
    fn lacks_any_key(&self, keys: &[Key]) -> bool
        ensures { may_tell self.now keys.now result };
}

impl<S: FactStore> KeyLookup for HeldFacts<S> {
    ghost use Rattle.held_facts.specs.HeldAnswers.{lacks};
    ghost use Rattle.std.specs.List.{list_any};
    ghost use Rattle.std.specs.Prelude.{◌≡◌};

    ghost may_tell = { λ held keys lacking. lacking ≡ list_any (lacks held) keys };

    fn lacks_any_key(&self, keys: &[Key]) -> bool {
        keys.iter().any(|key| self.count_facts_of_key(key) == 0)
    }
}
