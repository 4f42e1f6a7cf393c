//! Laws of the definitions, proved once for the crates above. A law is a function that does nothing: its clauses are the law.

ghost use Rattle.std.specs.Prelude.{◌≡◌, ◌↔◌, ◌<◌, ◌≤◌, ℕ, Some, slice_get, List, Bool, true, AllPairs, Contains};
ghost use Rattle.domains.specs.Area.{IsArea, IsSubarea};
ghost use Rattle.domains.specs.declared.area.Area.{Area};
ghost use Rattle.job.specs.Pipeline.{Stage, Pipeline};
ghost use Rattle.job.specs.Answers.{Tile};
ghost use Rattle.job.specs.WellFormed.{IsJob};
ghost use Rattle.tile_boxes.specs.Costs.{steps};
ghost use Rattle.tile_boxes.specs.Targets.{Target, IsTarget};
ghost use Rattle.overlap_tiles.specs.Needs.{needs, needed_keys, IsNeeded, IsTileBefore, IsKeyBefore};
ghost use Rattle.overlap_tiles.specs.Work.{work_tiles, is_tile_over_scratch_limit, IsWork, IsWorkedBefore};
ghost use Rattle.overlap_tiles.specs.Plans.{IsPlanFault};
ghost use Rattle.overlap_tiles.specs.declared.fault.PlanFault.TheVariants.{ScratchTooBig};
ghost use Rattle.overlap_tiles.specs.Lives.{IsReadAt, LivesMeet};
ghost use Rattle.overlap_tiles.specs.Ranges.{LieApart, HaveRoom};
ghost use Rattle.overlap_tiles.specs.Available.{ReadsAvailable};

/// The needs of a target are exactly the tiles of stored functions that have a point of their function's box. The tiles and their
/// keys rise.
pub fn tile_needs_are_exact()
    ensures all { (t : Target) (n : Tile) → IsJob t.job → IsTarget t → Contains (needs t) n
        ↔ IsNeeded t n }
    ensures order { (t : Target) → AllPairs IsTileBefore (needs t) }
    ensures keys { (program : List ℕ) (t : Target) → AllPairs IsKeyBefore (needed_keys program t) }
{}

/// Each read that a step makes at a point of its area lies in a plane, in what an earlier step computes, or in a needed tile.
pub fn steps_of_tile_plans_have_all_reads()
    ensures { (t : Target) → IsJob t.job → IsTarget t → ReadsAvailable t }
{}

/// The area of a step lies in the domain of its stage.
pub fn steps_of_tile_plans_lie_in_domains()
    ensures { (t : Target) (k g : ℕ) (s : Stage) (a : Area) → IsJob t.job → IsTarget t
        → slice_get (steps t) k ≡ Some (g, a) → slice_get t.job.stages g ≡ Some s
        → IsArea a × IsSubarea a s.domain }
{}

/// What a step reads is alive at each step from the one that computes it up to the one that reads it. So the ranges of the steps
/// between are elsewhere.
pub fn steps_live_until_their_last_reader()
    ensures { (job : Pipeline) (steps : List (ℕ × Area)) (k l m : ℕ) → k < l → l ≤ m
        → IsReadAt job steps k m → LivesMeet job steps k l }
{}

/// While a step is still to be read, no step between overwrites its range.
pub fn scratch_ranges_outlast_their_readers()
    ensures { (t : Target) (ranges : List (ℕ × ℕ)) (size k l m : ℕ) (a b : ℕ × ℕ)
        → HaveRoom t ranges size → k < l → l ≤ m → IsReadAt t.job (steps t) k m
        → slice_get ranges k ≡ Some a → slice_get ranges l ≡ Some b → LieApart a b }
{}

/// A target has exactly one list of ranges that satisfies `HaveRoom`, in scratch memory of one size.
pub fn scratch_ranges_are_determined()
    ensures some { (t : Target) → (ranges : List (ℕ × ℕ)) × (size : ℕ) × HaveRoom t ranges size }
    ensures one { (t : Target) (xs : List (ℕ × ℕ)) (m : ℕ) (ys : List (ℕ × ℕ)) (n : ℕ)
        → HaveRoom t xs m → HaveRoom t ys n → (xs ≡ ys) × (m ≡ n) }
{}

/// The list of all work tiles has exactly the tiles of stored functions and of accumulators, each once, in dependence order of
/// their stages, then of rows, then of columns.
pub fn work_keys_are_complete_and_in_order()
    ensures all { (job : Pipeline) (inlining : List Bool) (t : Tile)
        → Contains (work_tiles job inlining) t ↔ IsWork job inlining t }
    ensures order { (job : Pipeline) (inlining : List Bool)
        → AllPairs (IsWorkedBefore job) (work_tiles job inlining) }
{}

/// A tile exceeds scratch memory exactly where its plan has the fault `ScratchTooBig`.
pub fn tile_over_scratch_limit_has_plan_fault()
    ensures { (job : Pipeline) (inlining : List Bool) (t : Tile)
        → (is_tile_over_scratch_limit job inlining t ≡ true)
        ↔ IsPlanFault job inlining t.stage t.row t.col ScratchTooBig }
{}
