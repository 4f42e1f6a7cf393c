//! What the definitions amount to, proved once for the crates above. A law is a function whose clauses are the law.

ghost use Rattle.accumulators.specs.Answers.{IsAnswer};
ghost use Rattle.accumulators.specs.declared.answer.Answer.{Answer};
ghost use Rattle.catalog.specs.Entries.{Entry, IsCatalog, ids_of};
ghost use Rattle.identity.specs.declared.key.Key.{Key};
ghost use Rattle.job.specs.WellFormed.{IsJob};
ghost use Rattle.held_facts.specs.HeldAnswers.{HoldsTrueFacts, IsAnswerFault, IsFaultOfTrueFacts, IsHeldAnswer};
ghost use Rattle.held_facts.specs.Facts.{FactSet, holds, lent};
ghost use Rattle.held_facts.specs.declared.answer_fault.AnswerFault.{AnswerFault};
ghost use Rattle.std.specs.List.{Contains};
ghost use Rattle.std.specs.Prelude.{◌≡◌, ◌↔◌, true, List};
ghost use Rattle.tile_fact.specs.declared.fact.Fact.{Fact};

/// What is lent is held and of one of the keys, and all such facts are lent.
pub fn lent_facts_are_held()
    ensures lent { (s : FactSet) (keys : List Key) (f : Fact) →
        (holds (lent s keys) f ≡ true) ↔ ((holds s f ≡ true) × Contains keys f.key) }
{}

/// If all held facts are true of the jobs of a catalog, the answer for one of these jobs is its image and its totals. If there is
/// no answer, nothing is held of the least wanted key that is not ready, or all are held and memory was refused.
pub fn true_held_facts_answer_the_job()
    ensures answer { (catalog : List Entry) (entry : Entry) (s : FactSet) (answer : Answer)
        → IsCatalog catalog → Contains catalog entry → IsJob entry.pipeline
        → HoldsTrueFacts catalog s → IsHeldAnswer s (ids_of entry).program entry.pipeline answer
        → IsAnswer entry.pipeline answer }
    ensures fault { (catalog : List Entry) (entry : Entry) (s : FactSet) (fault : AnswerFault)
        → IsCatalog catalog → Contains catalog entry → HoldsTrueFacts catalog s
        → IsAnswerFault s (ids_of entry).program entry.pipeline fault
        → IsFaultOfTrueFacts s (ids_of entry).program entry.pipeline fault }
{}
