//! Consequences of the definitions. A law is a function whose clauses are the law.

ghost use Rattle.std.specs.Prelude.{◌≡◌};
ghost use Rattle.states.specs.States.{IsBelow, IsState, State, join, nothing};

/// Join is commutative and associative, on states idempotent, and the least state that is not below the two.
pub fn state_join_is_least_upper_bound()
    ensures commutative { (s t : State) → join s t ≡ join t s }
    ensures associative { (s t u : State) → join (join s t) u ≡ join s (join t u) }
    ensures idempotent { (s : State) → IsState s → join s s ≡ s }
    ensures neutral { (s : State) → IsState s → join s nothing ≡ s }
    ensures state { (s t : State) → IsState (join s t) }
    ensures first { (s t : State) → IsBelow s (join s t) }
    ensures second { (s t : State) → IsBelow t (join s t) }
    ensures least { (s t u : State) → IsBelow s u → IsBelow t u → IsBelow (join s t) u }
    ensures apart { (s t : State) → IsState s → IsState t → IsBelow s t → IsBelow t s → s ≡ t }
{}
