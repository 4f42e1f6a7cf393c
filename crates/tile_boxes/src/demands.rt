#![tactic(auto)]
//! What stages demand of others.

ghost use Rattle.std.specs.Prelude.{◌≡◌, ◌≤◌, ◌≤ℤ◌, ◌+ℤ◌, ◌-ℤ◌, pos, negsuc, map, All, IfSome, length};
ghost use Rattle.std.specs.List.{flat_map};
ghost use Rattle.std.specs.Option.{option_map, ForSome};
ghost use Rattle.domains.specs.Index.{image_of};
ghost use Rattle.job.specs.Reads.{window, formulas_of};
ghost use Rattle.job.specs.Values.{factors};
ghost use Rattle.job.specs.Views.{formula_view, case_view, body_view};
ghost use Rattle.job.specs.WellFormed.{InDomainRange, IsKernel, IsFormula};
ghost use Rattle.tile_boxes.specs.Demands.{meet_of_areas, widen_span, image_under, grown_by, formula_demands, case_demands};
ghost use Rattle.tile_boxes.specs.Demands.{other_demands, body_demands};
ghost use Rattle.tile_boxes.specs.Walks.{InDomainRanges, demanded, demanded_all};

use domains::{Area, Index, Span};
use job::{Body, Formula, Function, JobCase, Kernel};

/// What two areas have in common, if they meet.
pub fn intersect_boxes(one: &Area, other: &Area) -> Option<Area>
    ensures is { result ≡ meet_of_areas one.now other.now }
    ensures near { InDomainRanges other.now → IfSome result InDomainRanges }
{
    one.meet(other)
}

// The number that is less by `by`.
#[tactic(auto, using(std::proofs::lemmas::Int::ints))]
fn subtract_margin_from_box_start(v: i32, by: usize) -> i32
    requires few { by ≤ 7 }
    requires least { negsuc 16383 ≤ℤ v }
    requires most { v ≤ℤ pos 16384 }
    ensures { result ≡ v -ℤ pos by }
{
    v - by as i32
}

// The number that is greater by `by`.
#[tactic(auto, using(std::proofs::lemmas::Int::ints))]
fn add_margin_to_box_end(v: i32, by: usize) -> i32
    requires few { by ≤ 7 }
    requires least { negsuc 16383 ≤ℤ v }
    requires most { v ≤ℤ pos 16384 }
    ensures { result ≡ v +ℤ pos by }
{
    v + by as i32
}

// A span with `by` more numbers on each side.
fn widen_span(span: &Span, by: usize) -> Span
    requires near { InDomainRange span.now }
    requires few { by ≤ 7 }
    ensures { result ≡ widen_span by span.now }
{
    match Span::new(
        subtract_margin_from_box_start(span.lo(), by),
        add_margin_to_box_end(span.hi(), by),
    ) {
        Some(wide) => wide,
        None => unreachable!(),
    }
}

fn find_box_of_point_read(row: &Index, column: &Index, region: &Area) -> Area
    requires { InDomainRanges region.now }
    ensures { result ≡ record {
      rows = image_of row.now region.now.rows;
      cols = image_of column.now region.now.cols;
    } }
{
    Area {
        rows: row.image(&region.rows),
        cols: column.image(&region.cols),
    }
}

fn count_kernel_box_columns(kernel: &Kernel) -> usize
    requires { IsKernel kernel.now }
    ensures { result ≡ length (factors kernel.now 0) }
{
    match kernel.as_slice().first() {
        Some(row) => row.as_slice().len(),
        None => 0,
    }
}

fn find_box_of_stencil_read(kernel: &Kernel, region: &Area) -> Area
    requires kernel { IsKernel kernel.now }
    requires near { InDomainRanges region.now }
    ensures { result ≡ image_under (window 0 kernel.now) region.now }
{
    Area {
        rows: widen_span(&region.rows, kernel.as_slice().len() / 2),
        cols: widen_span(&region.cols, count_kernel_box_columns(kernel) / 2),
    }
}

// The bounding box of an area and of those before it.
fn compute_bounding_box_with_area(hull: &Option<Area>, area: Area) -> Option<Area>
    ensures { result ≡ grown_by hull.now area }
{
    match hull {
        Some(hull) => Some(hull.hull(&area)),
        None => Some(area),
    }
}

fn demand_area_of_stage(hulls: &mut [Option<Area>], stage: usize, area: Area)
    ensures { hulls.new ≡ demanded hulls.old (record { stage = stage; area = area }) }
{
    if stage < hulls.len() {
        hulls[stage] = compute_bounding_box_with_area(&hulls[stage], area);
    }
}

/// Each read of a formula demands its image.
fn demand_formula_reads(hulls: &mut [Option<Area>], formula: &Formula, region: &Area)
    requires formula { IsFormula (formula_view formula.now) }
    requires near { InDomainRanges region.now }
    ensures { hulls.new
        ≡ demanded_all hulls.old (formula_demands (formula_view formula.now) region.now) }
{
    match formula {
        Formula::Number(_) | Formula::Coordinate(_) => {}
        Formula::Read(stage, row, column) => {
            demand_area_of_stage(hulls, *stage, find_box_of_point_read(row, column, region));
        }
        Formula::Unary(_, operand)
        | Formula::Lookup(_, operand)
        | Formula::Literal(_, operand, _) => {
            demand_formula_reads(hulls, operand, region);
        }
        Formula::Binary(_, left, right) => {
            demand_formula_reads(hulls, left, region);
            demand_formula_reads(hulls, right, region);
        }
        Formula::Ternary(_, first, second, third) => {
            demand_formula_reads(hulls, first, region);
            demand_formula_reads(hulls, second, region);
            demand_formula_reads(hulls, third, region);
        }
        Formula::Select(left, _, right, then, otherwise) => {
            demand_formula_reads(hulls, left, region);
            demand_formula_reads(hulls, right, region);
            demand_formula_reads(hulls, then, region);
            demand_formula_reads(hulls, otherwise, region);
        }
        Formula::Stencil(stage, _, kernel) => {
            demand_area_of_stage(hulls, *stage, find_box_of_stencil_read(kernel, region));
        }
    }
}

// A case demands what it reads where its box meets the region.
fn demand_case_reads(hulls: &mut [Option<Area>], case: &JobCase, region: &Area)
    requires formula { IsFormula (formula_view case.now.formula) }
    requires near { InDomainRanges region.now }
    ensures { hulls.new ≡ demanded_all hulls.old (case_demands region.now (case_view case.now)) }
{
    if let Some(area) = case.area() {
        if let Some(meet) = intersect_boxes(area, region) {
            demand_formula_reads(hulls, case.formula(), &meet);
        }
    }
}

fn demand_reads_of_cases(hulls: &mut [Option<Area>], cases: &[JobCase], region: &Area)
    requires formulas { All IsFormula (map (λ p. p.formula) (map case_view cases.now)) }
    requires near { InDomainRanges region.now }
    ensures { hulls.new
        ≡ demanded_all hulls.old
        (flat_map (case_demands region.now) (map case_view cases.now)) }
{
    for case in cases {
        demand_case_reads(hulls, case, region);
    }
}

fn demand_otherwise_reads(hulls: &mut [Option<Area>], otherwise: &Option<Formula>, region: &Area)
    requires formula { ForSome (option_map formula_view otherwise.now) IsFormula }
    requires near { InDomainRanges region.now }
    ensures { hulls.new
        ≡ demanded_all hulls.old
        (other_demands (option_map formula_view otherwise.now) region.now) }
{
    if let Some(formula) = otherwise {
        demand_formula_reads(hulls, formula, region);
    }
}

/// Adds what a stage demands over a region.
pub(crate) fn demand_body_reads(hulls: &mut [Option<Area>], body: &Body, region: &Area)
    requires formulas { All IsFormula (formulas_of (body_view body.now)) }
    requires near { InDomainRanges region.now }
    ensures { hulls.new ≡ demanded_all hulls.old (body_demands (body_view body.now) region.now) }
{
    match body {
        Body::Plane(_) => {}
        Body::Function(function) => {
            demand_reads_of_cases(hulls, function.cases(), region);
            demand_otherwise_reads(hulls, function.otherwise(), region);
        }
        Body::Accumulator(accumulator) => {
            demand_formula_reads(hulls, accumulator.value(), region);
            demand_formula_reads(hulls, accumulator.bin(), region);
        }
    }
}
