//! What the definitions amount to, proved once for the crates above. A law is a function that does nothing, or calls what it is
//! about: its clauses are the law.

ghost use Rattle.std.specs.Prelude.{◌≡◌, ◌↔◌, ◌<◌, ◌++◌, ℕ, ℤ, Some, List, slice_get, All, FitsSigned};
ghost use Rattle.std.specs.Int.{w32, w64};
ghost use Rattle.domains.specs.Area.{HoldsPoint, IsArea, IsSubarea};
ghost use Rattle.domains.specs.declared.area.Area.{Area};
ghost use Rattle.domains.specs.Sides.{Sides};
ghost use Rattle.netpbm.specs.Image.{Image};
ghost use Rattle.operators.specs.declared.operator.ReductionOp.{ReductionOp};
ghost use Rattle.job.specs.Formula.{Formula, Test};
ghost use Rattle.job.specs.Answers.{image};
ghost use Rattle.job.specs.TileSides.{with_sides};
ghost use Rattle.job.specs.Pipeline.{Body, Stage, Pipeline, rank_of};
ghost use Rattle.job.specs.Values.{Valuation, formula_value, body_value, stage_value, value_within, value};
ghost use Rattle.job.specs.Reads.{EachRead, BodyReads, SameAt, AgreeOver, stage_read, reads_of, IsRanked};
ghost use Rattle.domains.specs.Cuts.{IsCutArea};
ghost use Rattle.job.specs.Boxes.{BoundsHold, AreBoxed, box_of};
ghost use Rattle.job.specs.Totals.{body_totals, total_of, joined, totals_over, totals};
ghost use Rattle.job.specs.WellFormed.{IsReadable, IsJob, IsSmall, Solves};
ghost use Rattle.job.specs.Identity.{input_bytes};

/// Reads lead to lower ranks. So a value is what its stage makes of the values that it reads, and steps beyond the rank change
/// nothing.
pub fn stage_values_follow_from_lower_ranks()
    ensures falls { (stages : List Stage) (g : ℕ) (s : Stage) → IsRanked stages
        → slice_get stages g ≡ Some s
        → All (λ x. rank_of stages (stage_read x) < rank_of stages g) (reads_of s.body) }
    ensures unrolls { (job : Pipeline) (g : ℕ) (r c : ℤ) → IsRanked job.stages
        → value job g r c ≡ stage_value job (value job) (slice_get job.stages g) r c }
    ensures enough { (job : Pipeline) (n g : ℕ) (r c : ℤ) → IsRanked job.stages
        → rank_of job.stages g < n → value_within job n g r c ≡ value job g r c }
{}

/// On their domains the stages' equations have one solution, the values of the job.
pub fn stage_equations_have_one_solution()
    ensures solves { (job : Pipeline) → IsJob job → Solves job (value job) }
    ensures only { (job : Pipeline) (env : Valuation) (g : ℕ) (r c : ℤ) → IsJob job → Solves job env
        → IsReadable job.stages g r c → env g r c ≡ value job g r c }
{}

/// The answer of a job does not depend on the sides of tiles.
pub fn job_answers_do_not_depend_on_tiling()
    ensures values { (job : Pipeline) (sides : Sides) → value (with_sides sides job) ≡ value job }
    ensures image { (job : Pipeline) (sides : Sides) → image (with_sides sides job) ≡ image job }
    ensures totals { (job : Pipeline) (sides : Sides) (g : ℕ)
        → totals (with_sides sides job) g ≡ totals job g }
{}

/// Each value of a job is a number of 32 bits.
pub fn stage_values_fit_in_32_bits()
    ensures { (job : Pipeline) (g : ℕ) (r c : ℤ) → IsJob job → IsReadable job.stages g r c
        → FitsSigned w32 (value job g r c) }
{}

/// Each total of a job is a number of 64 bits, over all points and over a part of them.
pub fn job_totals_fit_in_64_bits()
    ensures whole { (job : Pipeline) (g : ℕ) → IsJob job → All (FitsSigned w64) (totals job g) }
    ensures part { (job : Pipeline) (g : ℕ) (s : Stage) (area : Area) → IsJob job
        → slice_get job.stages g ≡ Some s → IsArea area → IsSubarea area s.domain
        → All (FitsSigned w64) (totals_over job area g) }
{}

/// Two valuations that have one value for all that is read give one value. This holds of a formula at a point or over a region,
/// of a stage at a point of its domain, and of totals over an area.
pub fn equal_reads_give_equal_stage_values()
    ensures formula { (e h : Valuation) (f : Formula) (r c : ℤ) → EachRead (SameAt e h) f r c
        → formula_value e f r c ≡ formula_value h f r c }
    ensures region { (e h : Valuation) (region : Area) (f : Formula) → AgreeOver e h region f
        → (r c : ℤ) → HoldsPoint region r c → formula_value e f r c ≡ formula_value h f r c }
    ensures stage { (picture : Image) (e h : Valuation) (domain : Area) (body : Body) (r c : ℤ)
        → AreBoxed domain body → HoldsPoint domain r c → BodyReads (SameAt e h) body r c
        → body_value picture e body r c ≡ body_value picture h body r c }
    ensures totals { (e h : Valuation) (area : Area) (body : Body) → IsArea area
        → ((r c : ℤ) → HoldsPoint area r c → BodyReads (SameAt e h) body r c)
        → body_totals e area body ≡ body_totals h area body }
{}

/// The total of two lists of values, one after the other, is that of their totals.
pub fn job_totals_join_over_parts()
    ensures { (way : ReductionOp) (vs ws : List ℤ)
        → total_of way (vs ++ ws) ≡ joined way (total_of way vs) (total_of way ws) }
{}

/// The box of tests has the points of the domain at which the tests of bounds hold, and is an area if there are any.
pub fn job_case_areas_are_cut_by_bounds()
    ensures cut { (domain : Area) (tests : List Test)
        → IsCutArea (BoundsHold tests) domain (box_of domain tests) }
    ensures area { (domain box : Area) (tests : List Test) → IsArea domain
        → box_of domain tests ≡ Some box → IsArea box }
{}

/// Inputs with equal bytes are the same: they have the same sides of tiles, parameters, picture and tables. There are few
/// parameters, as in a text.
pub fn equal_bytes_mean_equal_inputs()
    ensures { (a b : Pipeline) → IsJob a → IsJob b → IsSmall a → IsSmall b
        → input_bytes a ≡ input_bytes b
        → (a.sides ≡ b.sides) × (a.params ≡ b.params) × (a.picture ≡ b.picture)
        × (a.tables ≡ b.tables) }
{}
