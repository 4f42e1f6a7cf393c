//! Consequences of the definitions, proved once for dependent crates. A law is a function that does nothing: its clauses are the
//! law.

ghost use Rattle.std.specs.Prelude.{◌≡◌, ℕ, ℤ, Bool, Option, Some, List, map, slice_get, IsPermutation};
ghost use Rattle.domains.specs.Area.{HoldsPoint, IsArea};
ghost use Rattle.domains.specs.Tiles.{tile_area, tiles_of};
ghost use Rattle.domains.specs.declared.area.Area.{Area};
ghost use Rattle.job.specs.Answers.{grid_of, image};
ghost use Rattle.job.specs.Pipeline.{Stage, Pipeline};
ghost use Rattle.job.specs.Reads.{BodyReads};
ghost use Rattle.job.specs.Totals.{totals, totals_over};
ghost use Rattle.job.specs.WellFormed.{IsJob};
ghost use Rattle.tile_sources.specs.KnownTiles.{KnownTiles, AreTrue};
ghost use Rattle.one_tile.specs.Local.{IsAtHand, IsClosed};
ghost use Rattle.tile_eval.specs.Cases.{InBox};
ghost use Rattle.accumulators.specs.Answers.{gathered_at};
ghost use Rattle.accumulators.specs.Gatherings.{gathered_from};
ghost use Rattle.pictures.specs.Pictures.{given_image, GivesOutputs};
ghost use Rattle.partials.specs.Partials.{local_totals, joined_over};

/// The totals over the tiles of an accumulator, joined in any order, are its totals.
pub fn partials_join_to_answer_in_any_order()
    ensures { (job : Pipeline) (g : ℕ) (s : Stage) (tiles : List (ℕ × ℕ)) → IsJob job
        → slice_get job.stages g ≡ Some s → IsPermutation (tiles_of (grid_of job s)) tiles
        → joined_over job g (grid_of job s) tiles ≡ totals job g }
{}

/// If the supplied tiles are true, the picture that they give is the job's.
pub fn true_tiles_give_the_answer_picture()
    ensures { (job : Pipeline) (given : KnownTiles) → IsJob job → AreTrue job given
        → GivesOutputs job given → given_image job given ≡ image job }
{}

/// The totals over the tiles of an accumulator, each joined once and in any order, are the accumulator's totals.
pub fn running_total_of_partials_is_answer()
    ensures { (job : Pipeline) (g : ℕ) (s : Stage) (tiles : List (ℕ × ℕ)) → IsJob job
        → slice_get job.stages g ≡ Some s → IsPermutation (tiles_of (grid_of job s)) tiles
        → gathered_from job g
        (map (λ t. totals_over job (tile_area (grid_of job s) t.0 t.1) g) tiles)
        ≡ gathered_at job g }
{}

/// If the supplied tiles are true, the totals over an area that are computed from them are the accumulator's totals over that
/// area. All that it reads there must be available, directly or through inlined functions whose reads are.
pub fn true_tiles_give_true_accumulations()
    ensures { (job : Pipeline) (inlining : List Bool) (given : KnownTiles) (boxes : ℕ → Option Area)
        (g : ℕ) (s : Stage) (area : Area) → IsJob job → slice_get job.stages g ≡ Some s
        → IsArea area → AreTrue job given → IsClosed job inlining given (λ h. InBox (boxes h))
        → ((r c : ℤ) → HoldsPoint area r c
        → BodyReads (IsAtHand job inlining given (λ h. InBox (boxes h))) s.body r c)
        → local_totals job inlining given area g ≡ totals_over job area g }
{}
