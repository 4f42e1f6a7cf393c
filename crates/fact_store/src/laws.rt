//! Consequences of the definitions, proved once for dependent crates. A law is a function whose clauses are the law.

ghost use Rattle.fact_store.specs.Facts.{FactSet, nothing, holds, facts_in, with_fact, join, IsSubset, lacked, facts_of, names_one, without};
ghost use Rattle.identity.specs.declared.job_ids.JobId.{JobId};
ghost use Rattle.identity.specs.declared.key.Key.{Key};
ghost use Rattle.std.specs.List.{Contains};
ghost use Rattle.std.specs.Prelude.{◌≡◌, ◌↔◌, ◌⊎◌, ◌+◌, ◌++◌, true, false, List, length, filter};
ghost use Rattle.tile_fact.specs.declared.fact.Fact.{Fact};
ghost use Rattle.tile_fact.specs.Order.{Rises};

/// Sets of the same facts are equal. The empty set has no fact. A set with one more fact has this one and those that it had, and
/// a join has the facts of both.
pub fn fact_sets_are_their_facts()
    ensures same { (s t : FactSet) →
        ((f : Fact) → (holds s f ≡ true) ↔ (holds t f ≡ true)) → s ≡ t }
    ensures nothing { (f : Fact) → holds nothing f ≡ false }
    ensures one_more { (s : FactSet) (f g : Fact) →
        (holds (with_fact s f) g ≡ true) ↔ ((g ≡ f) ⊎ (holds s g ≡ true)) }
    ensures both { (s t : FactSet) (f : Fact) →
        (holds (join s t) f ≡ true) ↔ ((holds s f ≡ true) ⊎ (holds t f ≡ true)) }
    ensures listed { (s : FactSet) (f : Fact) → Contains (facts_in s) f ↔ (holds s f ≡ true) }
    ensures rise { (s : FactSet) → Rises (facts_in s) }
{}

/// The facts of a key are those of the set that have it, and what a set lacks of another is what only the other has.
pub fn fact_set_key_and_lacked_facts_are_exact()
    ensures of_key { (s : FactSet) (key : Key) (f : Fact) →
        Contains (facts_of s key) f ↔ ((holds s f ≡ true) × (f.key ≡ key)) }
    ensures lacked { (s t : FactSet) (f : Fact) →
        Contains (lacked s t) f ↔ ((holds t f ≡ true) × (holds s f ≡ false)) }
{}

/// Join is commutative, associative and idempotent, and the least set of which both are part.
pub fn fact_set_join_is_least_upper_bound()
    ensures commutative { (s t : FactSet) → join s t ≡ join t s }
    ensures associative { (s t u : FactSet) → join (join s t) u ≡ join s (join t u) }
    ensures idempotent { (s : FactSet) → join s s ≡ s }
    ensures neutral { (s : FactSet) → join s nothing ≡ s }
    ensures first { (s t : FactSet) → IsSubset s (join s t) }
    ensures second { (s t : FactSet) → IsSubset t (join s t) }
    ensures least { (s t u : FactSet) → IsSubset s u → IsSubset t u → IsSubset (join s t) u }
{}

/// Facts may come in any order, more than once, and through joins: the set is the same.
pub fn fact_sets_ignore_order_and_repeats()
    ensures swapped { (s : FactSet) (f g : Fact) →
        with_fact (with_fact s f) g ≡ with_fact (with_fact s g) f }
    ensures twice { (s : FactSet) (f : Fact) → with_fact (with_fact s f) f ≡ with_fact s f }
    ensures through { (s t : FactSet) (f : Fact) → join s (with_fact t f) ≡ with_fact (join s t) f }
{}

/// Of what a merge adds, the facts of jobs that either side has retired are left out. Those are the other's facts of jobs that
/// are retired here.
pub fn fact_set_merges_count_unretired_facts()
    ensures { (old other : FactSet) (ours theirs : List JobId)
        → ((f : Fact) → holds old f ≡ true → names_one ours f.key ≡ false)
        → ((f : Fact) → holds other f ≡ true → names_one theirs f.key ≡ false)
        → length (lacked old (without (join old other) (ours ++ theirs)))
        + length (filter (λ f. names_one ours f.key) (facts_in other)) ≡ length (lacked old (join old other)) }
{}
