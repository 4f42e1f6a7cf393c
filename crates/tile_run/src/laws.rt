//! Consequences of the definitions, proved once for the crates above. A law is a function that does nothing: its clauses are the
//! law.

ghost use Rattle.std.specs.Prelude.{◌≡◌, ◌⊎◌, ℕ, ℤ, Bool, true, Option, Some, List, slice_get, Contains};
ghost use Rattle.domains.specs.declared.area.Area.{Area};
ghost use Rattle.tile_boxes.specs.Targets.{Target};
ghost use Rattle.identity.specs.declared.key.Key.{Key};
ghost use Rattle.job.specs.Pipeline.{Pipeline};
ghost use Rattle.job.specs.Reads.{IsRanked};
ghost use Rattle.job.specs.Values.{stage_value, value};
ghost use Rattle.job.specs.WellFormed.{IsJob};
ghost use Rattle.overlap_tiles.specs.Needs.{needed_keys, IsKeyBefore};
ghost use Rattle.tile_eval.specs.Cases.{InBox};
ghost use Rattle.tile_sources.specs.KnownTiles.{KnownTiles, AreTrue};
ghost use Rattle.one_tile.specs.Local.{read_from, local_value, IsClosed};
ghost use Rattle.one_tile.specs.Runs.{is_missing, first_missing};

/// A local value is what its stage makes of what it reads: samples of planes, supplied numbers, and local values.
pub fn local_values_unroll()
    ensures { (job : Pipeline) (inlining : List Bool) (given : KnownTiles) (g : ℕ) (r c : ℤ)
        → IsRanked job.stages
        → local_value job inlining given g r c
        ≡ stage_value job (read_from job inlining given (local_value job inlining given))
        (slice_get job.stages g) r c }
{}

/// If supplied tiles are true, local values are the values of the job: over boxes of stages at each point of which all reads
/// are available.
pub fn true_tiles_give_true_local_values()
    ensures { (job : Pipeline) (inlining : List Bool) (given : KnownTiles) (boxes : ℕ → Option Area)
        (g : ℕ) (r c : ℤ) → IsJob job → AreTrue job given
        → IsClosed job inlining given (λ h. InBox (boxes h)) → InBox (boxes g) r c
        → local_value job inlining given g r c ≡ value job g r c }
{}

/// Of the tiles that a target needs, the first that is not supplied has the least key of those that are not.
pub fn first_missing_tile_has_least_key()
    ensures { (program : List ℕ) (t : Target) (given : KnownTiles) (key other : Key)
        → first_missing given (needed_keys program t) ≡ Some key
        → Contains (needed_keys program t) other → is_missing given other ≡ true
        → (other ≡ key) ⊎ IsKeyBefore key other }
{}
