//! Consequences of the definitions, proved once for dependent crates. A law is a function whose clauses are the law.

ghost use Rattle.std.specs.Prelude.{◌≡◌, ℕ, ◌<◌, ◌↔◌, Bool, None, List, ◌∷◌, false, length};
ghost use Rattle.catalog.specs.Entries.{AreJobs, Entry, IsCatalog, ids_of};
ghost use Rattle.fact_audit.specs.TrueFacts.{IsTrueFact};
ghost use Rattle.gossip_core.specs.Finishing.{GivesAll, IsPlanned, NoneRefused, lacked_work, makings};
ghost use Rattle.gossip_core.specs.Headline.{HasResult, Headline, wanted};
ghost use Rattle.gossip_core.specs.Histories.{Leads, start};
ghost use Rattle.gossip_core.specs.Networks.{Network};
ghost use Rattle.gossip_core.specs.Steps.{Accepts, WorldWork, held, kept};
ghost use Rattle.gossip_core.specs.Taking.{HasNo, HasTaken, IsJoinOf, IsPart, IsPartAtKeep, IsTaken, IsTakenAtKeep};
ghost use Rattle.gossip_core.specs.Truths.{AllTrue};
ghost use Rattle.gossip_events.specs.declared.event.Event.{Event};
ghost use Rattle.gossip_events.specs.declared.event.Event.TheVariants.{Keep, Merge};
ghost use Rattle.tile_boxes.specs.Schedules.{StoresOutputs};
ghost use Rattle.job.specs.WellFormed.{IsJob};
ghost use Rattle.held_facts.specs.Answers.{AreHeld};
ghost use Rattle.held_facts.specs.Facts.{FactSet};
ghost use Rattle.held_facts.specs.Making.{AreNeedsTrue, IsMade};
ghost use Rattle.node_state.specs.States.{IsBelow, State, nothing, retires};
ghost use Rattle.overlap_tiles.specs.Work.{find_key_over_scratch_limit, wanted_keys, work_keys};
ghost use Rattle.tile_fact.specs.declared.fact.Fact.{Fact};
ghost use Rattle.tile_fact.specs.declared.update.Update.{Update};

/// This holds for any list of events that leads to a world, refused ones included. Each node holds just what it took, and keeps
/// just what it had taken at its last keep. This is what the updates leave that came to it, where retirements remove the facts of
/// their jobs.
pub fn nodes_hold_what_they_took()
    ensures held { (u : WorldWork) (size : ℕ) (h accepted : List Event) (w : Network)
        → Leads u size h accepted w → (n : ℕ) → IsTaken w.messages accepted n (held w n) }
    ensures kept { (u : WorldWork) (size : ℕ) (h accepted : List Event) (w : Network)
        → Leads u size h accepted w → (n : ℕ) → IsTakenAtKeep w.messages accepted n (kept w n) }
{}

/// What a node holds is the join of all that came together in it. The parts are the messages that were delivered to it after its
/// last restart, and what nodes had taken that were merged in after that. The last part is what it had taken itself at its last
/// keep before that restart.
pub fn nodes_hold_the_join_of_what_they_took()
    ensures { (u : WorldWork) (size : ℕ) (h accepted : List Event) (w : Network)
        → Leads u size h accepted w
        → (n : ℕ) → IsJoinOf (IsPart w.messages accepted n) (held w n) }
{}

/// What a node keeps is the join of the parts that had come together in it at its last keep. A node that never kept keeps nothing.
pub fn nodes_keep_the_join_of_what_they_took_at_the_last_keep()
    ensures joined { (u : WorldWork) (size : ℕ) (h accepted : List Event) (w : Network)
        → Leads u size h accepted w
        → (n : ℕ) → IsJoinOf (IsPartAtKeep w.messages accepted n) (kept w n) }
    ensures none { (u : WorldWork) (size : ℕ) (h accepted : List Event) (w : Network)
        → Leads u size h accepted w
        → (n : ℕ) → HasNo (Keep n) accepted → kept w n ≡ nothing }
{}

/// So nodes that took the same hold the same.
pub fn nodes_that_took_the_same_hold_the_same()
    ensures { (u : WorldWork) (size : ℕ) (h accepted : List Event) (w : Network) (n m : ℕ)
        → Leads u size h accepted w
        → ((update : Update) → HasTaken w.messages accepted n update ↔ HasTaken w.messages accepted m update)
        → held w n ≡ held w m }
{}

/// After a merge a node holds the least state that has what both held before. The other node holds what it held, unless it is the
/// same one.
pub fn accepted_merges_give_least_upper_bounds()
    ensures first { (u : WorldWork) (w new : Network) (a b : ℕ) → Accepts u w (Merge a b) new
        → IsBelow (held w a) (held new a) }
    ensures second { (u : WorldWork) (w new : Network) (a b : ℕ) → Accepts u w (Merge a b) new
        → IsBelow (held w b) (held new a) }
    ensures least { (u : WorldWork) (w new : Network) (a b : ℕ) → Accepts u w (Merge a b) new
        → (s : State) → IsBelow (held w a) s → IsBelow (held w b) s → IsBelow (held new a) s }
    ensures other { (u : WorldWork) (w new : Network) (a b n : ℕ) → Accepts u w (Merge a b) new
        → ¬ (a ≡ n) → held new n ≡ held w n }
{}

/// A node that holds all tiles from which a job's answer is composed has not retired the job, if this has an output or an
/// accumulator.
pub fn nodes_that_took_all_of_a_job_have_not_retired_it()
    ensures { (u : WorldWork) (size : ℕ) (h accepted : List Event) (w : Network) (n : ℕ)
        (entry : Entry) → Leads u size h accepted w → IsJob entry.pipeline
        → HasResult entry.pipeline → AreHeld (held w n).facts (wanted entry)
        → retires (held w n) (ids_of entry) ≡ false }
{}

/// What is made of a tile is true, if all held facts of the tiles that it needs are true.
pub fn facts_made_from_truth_are_true()
    ensures { (jobs : List Entry) (s : FactSet) (inlining : List Bool) (fact : Fact)
        → IsCatalog jobs → AreJobs jobs → AreNeedsTrue jobs s inlining fact.key
        → IsMade jobs s inlining fact → IsTrueFact jobs fact }
{}

/// In a world of true facts an accepted event brings only true facts.
pub fn accepted_events_keep_truth()
    ensures { (u : WorldWork) (w new : Network) (e : Event) → IsCatalog u.jobs → AreJobs u.jobs
        → AllTrue u.jobs w → Accepts u w e new → AllTrue u.jobs new }
{}

/// So all that nodes hold, keep and send is true in each world to which events lead from nodes that hold nothing.
pub fn worlds_hold_only_truth()
    ensures { (u : WorldWork) (size : ℕ) (h accepted : List Event) (w : Network) → IsCatalog u.jobs
        → AreJobs u.jobs → Leads u size h accepted w → AllTrue u.jobs w }
{}

/// In a world of true facts, a node may lack some tiles of a job's stored functions and accumulators. The events that make and
/// deliver these tiles are not refused, if the node has not retired the job and each tile fits into scratch memory. Then the node
/// holds all tiles of the job's stored functions and accumulators. If its schedule stores the outputs, it holds all tiles that
/// the job's answer is composed from.
pub fn accepted_finishing_events_give_all_tiles()
    ensures accepted { (u : WorldWork) (w : Network) (n j : ℕ) (entry : Entry) (inlining : List Bool)
        → IsCatalog u.jobs → AreJobs u.jobs → AllTrue u.jobs w
        → n < length w.nodes → IsPlanned u n j entry inlining
        → retires (held w n) (ids_of entry) ≡ false
        → find_key_over_scratch_limit entry.pipeline inlining (lacked_work (held w n).facts entry inlining) ≡ None
        → NoneRefused u w (makings n (length w.messages) (lacked_work (held w n).facts entry inlining)) }
    ensures work { (u : WorldWork) (w : Network) (n j : ℕ) (entry : Entry) (inlining : List Bool)
        → IsCatalog u.jobs → AreJobs u.jobs → AllTrue u.jobs w
        → n < length w.nodes → IsPlanned u n j entry inlining
        → retires (held w n) (ids_of entry) ≡ false
        → find_key_over_scratch_limit entry.pipeline inlining (lacked_work (held w n).facts entry inlining) ≡ None
        → GivesAll u w n (makings n (length w.messages) (lacked_work (held w n).facts entry inlining))
        (work_keys (ids_of entry).program entry.pipeline inlining) }
    ensures wanted { (u : WorldWork) (w : Network) (n j : ℕ) (entry : Entry) (inlining : List Bool)
        → IsCatalog u.jobs → AreJobs u.jobs → AllTrue u.jobs w
        → n < length w.nodes → IsPlanned u n j entry inlining
        → retires (held w n) (ids_of entry) ≡ false
        → find_key_over_scratch_limit entry.pipeline inlining (lacked_work (held w n).facts entry inlining) ≡ None
        → StoresOutputs entry.pipeline inlining
        → GivesAll u w n (makings n (length w.messages) (lacked_work (held w n).facts entry inlining))
        (wanted_keys (ids_of entry).program entry.pipeline) }
{}

/// The headline: all that `Headline` says holds of each world to which events lead from nodes that hold nothing, over a catalog
/// of jobs.
pub fn headline()
    ensures { (u : WorldWork) (size : ℕ) (h accepted : List Event) (w : Network) → IsCatalog u.jobs
        → AreJobs u.jobs → Leads u size h accepted w → Headline u w accepted }
{}
