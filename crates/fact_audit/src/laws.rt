//! Consequences of the definitions. A law is a function whose clauses are the law.

ghost use Rattle.std.specs.Prelude.{◌≡◌, List};
ghost use Rattle.catalog.specs.Entries.{Entry, IsCatalog};
ghost use Rattle.fact_audit.specs.Shapes.{FitsJob};
ghost use Rattle.fact_audit.specs.TrueFacts.{IsTrueFact, IsTrueOf};
ghost use Rattle.fact_audit.specs.Verdicts.{IsVerdict};
ghost use Rattle.fact_audit.specs.declared.verdict.Verdict.{Verdict};
ghost use Rattle.job.specs.Pipeline.{Pipeline};
ghost use Rattle.tile_fact.specs.declared.fact.Fact.{Fact};

/// A key has at most one true fact.
pub fn keys_have_one_true_fact()
    ensures { (catalog : List Entry) (a b : Fact) → IsCatalog catalog → IsTrueFact catalog a
        → IsTrueFact catalog b → a.key ≡ b.key → a ≡ b }
{}

/// A true fact has the kind and the count of its tile.
pub fn true_facts_fit_their_tiles()
    ensures { (job : Pipeline) (fact : Fact) → IsTrueOf fact job → FitsJob fact job }
{}

/// No fact has two verdicts. So a true fact is judged true, one of no job foreign, and one that does not fit misshapen.
pub fn facts_have_one_verdict()
    ensures { (catalog : List Entry) (fact : Fact) (v w : Verdict) → IsCatalog catalog
        → IsVerdict catalog fact v → IsVerdict catalog fact w → v ≡ w }
{}
