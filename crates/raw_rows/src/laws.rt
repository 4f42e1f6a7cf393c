#![tactic(auto)]
//! What the rows of a picture amount to, proved once for the crates above. A law is a function that does nothing: its clauses are the
//! law.

ghost use Rattle.std.specs.Prelude.{◌≡◌, ℕ, ◌+◌, ◌*◌, ℤ, List, [], ◌∷◌, ◌++◌, length, map, slice_index};
ghost use Rattle.netpbm.specs.Colours.{interleaved, woven};
ghost use Rattle.netpbm.specs.Raw.{raw_raster};
ghost use Rattle.job.specs.Answers.{height_of, picture_of, sample_of};
ghost use Rattle.job.specs.Pipeline.{Output, Pipeline};
ghost use Rattle.job.specs.WellFormed.{IsOutput};
ghost use Rattle.raw_rows.specs.Rows.{bytes_per_row, raw_row, raw_rows, row_values};

/// All rows of a picture, one after another, are its raw raster.
pub fn raw_rows_are_the_raster()
    ensures { (job : Pipeline) (o : Output) → IsOutput job o
        → raw_rows job o 0 (height_of job (slice_index o.stages 0))
        ≡ raw_raster o.max (interleaved (picture_of job o).planes) }
{}

/// Some rows and those that follow them are these rows together.
pub fn raw_rows_join()
    ensures { (job : Pipeline) (o : Output) (y m n : ℕ)
        → raw_rows job o y (m + n) ≡ raw_rows job o y m ++ raw_rows job o (y + m) n }
{}

/// Each row of a picture has equally many bytes.
pub fn raw_rows_have_one_length()
    ensures one { (job : Pipeline) (o : Output) (y : ℕ) → IsOutput job o
        → length (raw_row job o y) ≡ bytes_per_row job o }
    ensures all { (job : Pipeline) (o : Output) (y n : ℕ) → IsOutput job o
        → length (raw_rows job o y n) ≡ n * bytes_per_row job o }
{}

/// Lines that have the values of an output's stages in a row spell the bytes of that row.
pub fn raw_row_is_that_of_its_lines()
    ensures grey { (job : Pipeline) (o : Output) (y g : ℕ) (line : List ℤ) → o.stages ≡ g ∷ []
        → line ≡ row_values job y g
        → raw_raster o.max (map (sample_of o.max) line) ≡ raw_row job o y }
    ensures colour { (job : Pipeline) (o : Output) (y r g b : ℕ) (red green blue : List ℤ)
        → o.stages ≡ r ∷ g ∷ b ∷ [] → red ≡ row_values job y r → green ≡ row_values job y g
        → blue ≡ row_values job y b
        → raw_raster o.max (woven (map (sample_of o.max) red) (map (sample_of o.max) green)
        (map (sample_of o.max) blue)) ≡ raw_row job o y }
{}
