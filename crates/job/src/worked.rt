//! Small jobs whose answers were worked by hand, and are computed from the definitions.

ghost use Rattle.std.specs.Prelude.{◌≡◌, ℤ, pos, negsuc, Some, [], ◌∷◌};
ghost use Rattle.netpbm.specs.Image.{image as picture};
ghost use Rattle.operators.specs.declared.operator.UnaryOp.TheVariants.{Neg};
ghost use Rattle.operators.specs.declared.operator.BinaryOp.TheVariants.{Sub};
ghost use Rattle.operators.specs.declared.operator.TernaryOp.TheVariants.{Clamp};
ghost use Rattle.operators.specs.declared.operator.LiteralOp.TheVariants.{Shl, Shr};
ghost use Rattle.operators.specs.declared.operator.Relation.TheVariants.{AtMost, AtLeast, Equals};
ghost use Rattle.job.specs.Formula.{number, read, unary, binary, ternary, literal, select};
ghost use Rattle.job.specs.Boxes.{box_of};
ghost use Rattle.job.specs.Identity.{input_bytes};
ghost use Rattle.job.specs.Values.{Valuation, formula_value, value};
ghost use Rattle.job.specs.Totals.{totals, totals_over};
ghost use Rattle.job.specs.Answers.{image, samples, wanted};
ghost use Rattle.job.specs.WellFormed.{IsJob};
ghost use Rattle.job.specs.Worked.{ends, area, same, tile, blur, halving, edges, turned, counting, outside, toned};
ghost use Rattle.job.specs.Lopsided.{leaning, odd_columns, right_half, choosing, below_zero, greatest_samples};

/// A stencil in the one case whose tests hold at the middle; elsewhere no case holds, and there is no `else`.
pub fn worked_job_blurs_the_middle()
    ensures is_job { IsJob blur }
    ensures answers { image blur
        ≡ Some (picture 3 3 255 ((0 ∷ 0 ∷ 0 ∷ 0 ∷ 5 ∷ 0 ∷ 0 ∷ 0 ∷ 0 ∷ []) ∷ [])) }
{}

/// Reads at every other point, and reads of each point four times.
pub fn worked_job_downsamples_then_upsamples()
    ensures halves { samples halving 255 1 ≡ 0 ∷ 2 ∷ 8 ∷ 10 ∷ [] }
    ensures doubles { image halving
        ≡ Some (picture 4 4 255
        ((0 ∷ 0 ∷ 2 ∷ 2 ∷ 0 ∷ 0 ∷ 2 ∷ 2 ∷ 8 ∷ 8 ∷ 10 ∷ 10 ∷ 8 ∷ 8 ∷ 10 ∷ 10 ∷ []) ∷ [])) }
{}

/// A sum past the greatest number is the least; the least has no absolute value; quotients are rounded down.
pub fn worked_job_wraps_at_32_bits()
    ensures sum { value edges 1 (pos 0) (pos 0) ≡ negsuc 2147483647 }
    ensures absolute { value edges 2 (pos 0) (pos 0) ≡ negsuc 2147483647 }
    ensures quotient { value edges 3 (pos 0) (pos 0) ≡ negsuc 3 }
    ensures rest { value edges 4 (pos 0) (pos 0) ≡ pos 1 }
    ensures cut { image edges ≡ Some (picture 1 1 255 ((0 ∷ []) ∷ [])) }
{}

/// Three functions make the planes of a picture in colour, in the order of the output.
pub fn worked_job_makes_three_planes()
    ensures { image turned ≡ Some (picture 1 1 255 ((3 ∷ []) ∷ (2 ∷ []) ∷ (1 ∷ []) ∷ [])) }
{}

/// How many samples leave each remainder, over all points and over those of the first tile.
pub fn worked_job_counts_remainders()
    ensures whole { totals counting 1 ≡ pos 2 ∷ pos 3 ∷ pos 2 ∷ pos 2 ∷ [] }
    ensures tile { totals_over counting (area (pos 1) (pos 1)) 1
        ≡ pos 1 ∷ pos 2 ∷ pos 1 ∷ pos 0 ∷ [] }
    ensures tiles { wanted counting ≡ tile 1 0 0 ∷ tile 1 0 1 ∷ tile 1 1 0 ∷ tile 1 1 1 ∷ [] }
{}

/// A point whose bin lies outside changes nothing, and a bin without a point keeps its start.
pub fn worked_job_keeps_start_of_empty_bins()
    ensures { totals outside 1
        ≡ pos 9223372036854775807 ∷ pos 9223372036854775807 ∷ pos 9223372036854775807 ∷ [] }
{}

/// The first column of a kernel is over the point to the left.
pub fn worked_job_does_not_turn_kernels()
    ensures { value leaning 1 (pos 0) (pos 1) ≡ pos 321 }
{}

/// The first case that holds counts, then the next, then the other formula. A shift is computed before a sum.
pub fn worked_job_takes_the_first_case()
    ensures { image choosing
        ≡ Some (picture 3 4 20 ((0 ∷ 1 ∷ 8 ∷ 1 ∷ 10 ∷ 1 ∷ 9 ∷ 1 ∷ 20 ∷ 20 ∷ 10 ∷ 10 ∷ []) ∷ [])) }
{}

/// Tests of the first variable restrict rows, those of the second restrict columns, and a remainder restricts nothing.
pub fn worked_job_tests_cut_boxes_by_axis()
    ensures rows { box_of (area (pos 2) (pos 3)) odd_columns ≡ Some (area (pos 1) (pos 3)) }
    ensures columns { box_of (area (pos 2) (pos 3)) right_half
        ≡ Some (record { rows = ends (pos 0) (pos 2); cols = ends (pos 2) (pos 3) }) }
{}

/// A clamp applies its lower end and then its upper end; a comparison has its left side on the left; shifts double and halve.
pub fn worked_formulas_match_hand_results()
    ensures clamp { (env : Valuation) (r c : ℤ)
        → formula_value env (ternary Clamp (number (pos 5)) (number (pos 7)) (number (pos 3))) r c ≡ pos 3 }
    ensures at_most { (env : Valuation) (r c : ℤ)
        → formula_value env
        (select (number (pos 1)) AtMost (number (pos 2)) (number (pos 3)) (number (pos 4))) r c
        ≡ pos 3 }
    ensures at_least { (env : Valuation) (r c : ℤ)
        → formula_value env
        (select (number (pos 1)) AtLeast (number (pos 2)) (number (pos 3)) (number (pos 4))) r c
        ≡ pos 4 }
    ensures equals { (env : Valuation) (r c : ℤ)
        → formula_value env
        (select (number (pos 2)) Equals (number (pos 2)) (number (pos 3)) (number (pos 4))) r c
        ≡ pos 3 }
    ensures doubles { (env : Valuation) (r c : ℤ)
        → formula_value env (literal Shl (number (pos 1)) 31) r c ≡ negsuc 2147483647 }
    ensures halves { (env : Valuation) (r c : ℤ)
        → formula_value env (literal Shr (unary Neg (number (pos 5))) 1) r c ≡ negsuc 2 }
{}

/// Points and indices may lie below 0, and an index is rounded down.
pub fn worked_job_rounds_down_below_zero()
    ensures first { value below_zero 2 (negsuc 0) (pos 0) ≡ negsuc 2 }
    ensures middle { value below_zero 2 (pos 0) (pos 0) ≡ negsuc 1 }
    ensures last { value below_zero 2 (pos 1) (pos 0) ≡ negsuc 1 }
{}

/// The greatest sample of each column, over all points and over those of the first tile.
pub fn worked_job_totals_are_column_maxima()
    ensures whole { totals greatest_samples 1 ≡ pos 5 ∷ pos 8 ∷ pos 4 ∷ [] }
    ensures tile { totals_over greatest_samples (area (pos 1) (pos 1)) 1
        ≡ pos 5 ∷ pos 8 ∷ negsuc 9223372036854775807 ∷ [] }
{}

/// An entry of a table at an index, which is clamped to the ends of the table; and what is hashed of a job with a table.
pub fn worked_job_looks_up_entries()
    ensures entries { image (toned (read 0 same same))
        ≡ Some (picture 1 3 255 ((10 ∷ 30 ∷ 40 ∷ []) ∷ [])) }
    ensures below { image (toned (binary Sub (read 0 same same) (number (pos 5))))
        ≡ Some (picture 1 3 255 ((10 ∷ 10 ∷ 40 ∷ []) ∷ [])) }
    ensures hashed { input_bytes (toned (read 0 same same))
        ≡ 80 ∷ 84 ∷ 73 ∷ 50 ∷ 0 ∷ 0 ∷ 0 ∷ 64 ∷ 0 ∷ 0 ∷ 0 ∷ 64 ∷ 0 ∷ 0 ∷ 0 ∷ 1 ∷ 1 ∷ 116 ∷ 0 ∷ 0 ∷ 0 ∷ 0
        ∷ 0 ∷ 4 ∷ 0 ∷ 0 ∷ 0 ∷ 10 ∷ 0 ∷ 0 ∷ 0 ∷ 20 ∷ 0 ∷ 0 ∷ 0 ∷ 30 ∷ 0 ∷ 0 ∷ 0 ∷ 40
        ∷ 80 ∷ 53 ∷ 10 ∷ 51 ∷ 32 ∷ 49 ∷ 10 ∷ 57 ∷ 10 ∷ 0 ∷ 2 ∷ 9 ∷ [] }
{}
