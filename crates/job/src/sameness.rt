#![tactic(auto)]
//! Whether the same bytes are hashed of two inputs.

ghost use Rattle.std.specs.Prelude.{◌≡◌, ◌<◌, ◌↔◌, ◌++◌, ◌∷◌, ℕ, List, IsTrue, map, FitsSigned, All};
ghost use Rattle.std.specs.Int.{w32};
ghost use Rattle.std.specs.List.{flat_map};
ghost use Rattle.plane_samples.specs.Samples.{count_in, sample_in};
ghost use Rattle.job.specs.Identity.{parameter_bytes, table_bytes, input_bytes};
ghost use Rattle.job.specs.inside.Marks.{EndsNames};
ghost use Rattle.job.specs.Views.{parameter_view, pipeline_of};
ghost use Rattle.job.specs.WellFormed.{IsJob, IsTable};

use crate::bound_pipeline::BoundPipeline;
use crate::outputs::Parameter;
use domains::TileSides;
use netpbm::{Picture, PlaneSamples};
use tables::Table;

/// Whether the bytes whose digests are the identities of the inputs are the same. The pictures are compared and not copied; no
/// memory is taken.
pub(crate) fn has_same_input_bytes(a: &BoundPipeline, b: &BoundPipeline) -> bool
    requires first { IsJob (pipeline_of a.now) }
    requires second { IsJob (pipeline_of b.now) }
    ensures { IsTrue result ↔ input_bytes (pipeline_of a.now) ≡ input_bytes (pipeline_of b.now) }
{
    if !has_same_input_sides(&a.sides, &b.sides) {
        return false;
    }
    if a.tables.is_empty() != b.tables.is_empty() {
        return false;
    }
    if !has_same_input_parameters(&a.params, &b.params) {
        return false;
    }
    if !has_same_input_tables(&a.tables, &b.tables) {
        return false;
    }
    is_same_input_picture(&a.picture, &b.picture)
}

fn has_same_input_sides(a: &TileSides, b: &TileSides) -> bool
    ensures { IsTrue result ↔ a.now ≡ b.now }
{
    a == b
}

// Whether the parameters are the same. They are if their bytes are equal, whatever pictures follow them.
fn has_same_input_parameters(a: &[Parameter], b: &[Parameter]) -> bool
    requires first { All (λ p. FitsSigned w32 p.value) (map parameter_view a.now) }
    requires second { All (λ p. FitsSigned w32 p.value) (map parameter_view b.now) }
    ensures same { IsTrue result → map parameter_view a.now ≡ map parameter_view b.now }
    ensures told { (m n : ℕ) (c d : List ℕ) → EndsNames m → EndsNames n
        → flat_map parameter_bytes (map parameter_view a.now) ++ m ∷ c
        ≡ flat_map parameter_bytes (map parameter_view b.now) ++ n ∷ d → IsTrue result }
{
    match (a.split_first(), b.split_first()) {
        (None, None) => true,
        (Some((first, rest)), Some((other, others))) => {
            is_same_input_parameter(first, other) && has_same_input_parameters(rest, others)
        }
        (Some((first, _)), None) | (None, Some((first, _))) => {
            // The length of a name is no byte with which tables or a picture begin: 0, or the letter `P`.
            let name = first.name.as_bytes();
            prove!(0 < name.len() && name.len() <= 32);
            false
        }
    }
}

fn is_same_input_parameter(a: &Parameter, b: &Parameter) -> bool
    requires first { FitsSigned w32 a.now.value }
    requires second { FitsSigned w32 b.now.value }
    ensures { IsTrue result ↔ parameter_view a.now ≡ parameter_view b.now }
{
    a.name.as_bytes() == b.name.as_bytes() && a.value == b.value
}

// Whether the tables are the same. They are if their bytes are equal, whatever pictures follow them.
fn has_same_input_tables(a: &[Table], b: &[Table]) -> bool
    requires first { All IsTable a.now }
    requires second { All IsTable b.now }
    ensures same { IsTrue result → a.now ≡ b.now }
    ensures told { (c d : List ℕ) → flat_map table_bytes a.now ++ 80 ∷ c
        ≡ flat_map table_bytes b.now ++ 80 ∷ d → IsTrue result }
{
    match (a.split_first(), b.split_first()) {
        (None, None) => true,
        (Some((first, rest)), Some((other, others))) => {
            is_same_input_table(first, other) && has_same_input_tables(rest, others)
        }
        (Some((first, _)), None) | (None, Some((first, _))) => {
            let name = first.name.as_bytes();
            prove!(name.len() < 80);
            false
        }
    }
}

fn is_same_input_table(a: &Table, b: &Table) -> bool
    ensures { IsTrue result ↔ a.now ≡ b.now }
{
    a.name.as_bytes() == b.name.as_bytes()
        && a.lo == b.lo
        && has_same_input_table_entries(a.values.as_slice(), b.values.as_slice())
}

fn has_same_input_table_entries(a: &[i32], b: &[i32]) -> bool
    ensures { IsTrue result ↔ a.now ≡ b.now }
{
    a == b
}

fn is_same_input_picture(a: &Picture, b: &Picture) -> bool
    ensures { IsTrue result ↔ a.now ≡ b.now }
{
    a.rows() == b.rows()
        && a.cols() == b.cols()
        && a.max() == b.max()
        && has_same_input_planes(a, b)
}

fn has_same_input_planes(a: &Picture, b: &Picture) -> bool
    ensures { IsTrue result ↔ a.now.planes ≡ b.now.planes }
{
    if a.plane_count() != b.plane_count() {
        return false;
    }
    for plane in 0..a.plane_count() {
        if !has_same_input_samples(&a.samples(plane), &b.samples(plane)) {
            return false;
        }
    }
    true
}

// Whether samples are the same, however they lie in memory.
fn has_same_input_samples(a: &PlaneSamples<'_>, b: &PlaneSamples<'_>) -> bool
    ensures { IsTrue result
        ↔ (count_in a.now ≡ count_in b.now)
        × ((k : ℕ) → k < count_in a.now → sample_in a.now k ≡ sample_in b.now k) }
{
    if a.count() != b.count() {
        return false;
    }
    for k in 0..a.count() {
        if a.load_sample(k) != b.load_sample(k) {
            return false;
        }
    }
    true
}
