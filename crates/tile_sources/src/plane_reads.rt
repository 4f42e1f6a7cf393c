#![tactic(auto)]
//! Over which areas a tile reads planes repeatedly. No value depends on what is found here: it only determines which samples are
//! converted once for the tile, and not again at each read.

use domains::{Area, Index, Span};
use job::{Body, Formula, Function, Job, JobCase, Kernel};
use overlap_tiles::TileStep;

/// Of each plane the area over which its samples are converted for a tile, if that pays off.
#[derive(Clone, Copy)]
pub struct PlaneAreas {
    pub first: Option<Area>,
    pub second: Option<Area>,
    pub third: Option<Area>,
}

// How a plane is read: how many samples in all, and over which area.
#[derive(Clone, Copy)]
struct PlaneReads {
    samples: u64,
    area: Option<Area>,
}

impl PlaneReads {
    fn new() -> PlaneReads {
        PlaneReads {
            samples: 0,
            area: None,
        }
    }

    // Adds `samples` samples, over this area.
    fn add_area_reads(&self, samples: u64, area: Area) -> PlaneReads {
        let area = match self.area {
            Some(own) => own.hull(&area),
            None => area,
        };
        PlaneReads {
            samples: self.samples.saturating_add(samples),
            area: Some(area),
        }
    }

    // The area, if it has no more points than this, and its samples are read twice or more on average. A kernel of three rows
    // does so: its samples lie in a somewhat larger area than its points.
    fn find_area_to_convert(&self, most: u64) -> Option<Area> {
        let area = self.area?;
        if area.points() <= most.min(self.samples / 2) {
            Some(area)
        } else {
            None
        }
    }
}

// What an index takes the numbers of a span to, if the span lies near enough to 0.
fn find_plane_read_span(index: &Index, span: &Span) -> Option<Span> {
    if -32_767 <= span.lo() && span.hi() <= 32_768 {
        Some(index.image(span))
    } else {
        None
    }
}

fn find_plane_read_area(row: &Index, col: &Index, region: &Area) -> Option<Area> {
    let rows = find_plane_read_span(row, &region.rows)?;
    let cols = find_plane_read_span(col, &region.cols)?;
    Some(Area { rows, cols })
}

// A span with `by` more numbers on each side.
fn extend_plane_read_span_on_both_sides(span: &Span, by: usize) -> Option<Span> {
    let by = by.min(7) as i32;
    Span::new(span.lo() - by, span.hi() + by)
}

fn find_plane_read_area_by_kernel(kernel: &Kernel, region: &Area) -> Option<Area> {
    let lines = kernel.as_slice();
    let width = lines.first()?.as_slice().len();
    let rows = extend_plane_read_span_on_both_sides(&region.rows, lines.len() / 2)?;
    let cols = extend_plane_read_span_on_both_sides(&region.cols, width / 2)?;
    Some(Area { rows, cols })
}

// Adds reads of a stage, if it is a plane: of `samples` samples, over this area of its domain.
fn record_plane_reads_if_stage_is_plane(
    job: &Job,
    reads: &mut [PlaneReads],
    stage: usize,
    samples: u64,
    area: Option<Area>,
) {
    let (Some(found), Some(area)) = (job.stage(stage), area) else {
        return;
    };
    let (Body::Plane(plane), Some(within)) = (found.body(), area.meet(found.domain())) else {
        return;
    };
    if *plane < reads.len() {
        reads[*plane] = reads[*plane].add_area_reads(samples, within);
    }
}

// Adds the reads of a formula over a region. One that takes columns that are not adjacent is left out.
fn record_plane_reads_of_formula(
    job: &Job,
    reads: &mut [PlaneReads],
    formula: &Formula,
    region: &Area,
) {
    match formula {
        Formula::Number(_) | Formula::Coordinate(_) => {}
        Formula::Read(stage, row, col) => {
            if col.mul() == 1 && col.div() == 1 {
                let area = find_plane_read_area(row, col, region);
                record_plane_reads_if_stage_is_plane(job, reads, *stage, region.points(), area);
            }
        }
        Formula::Unary(_, a) | Formula::Lookup(_, a) | Formula::Literal(_, a, _) => {
            record_plane_reads_of_formula(job, reads, a, region);
        }
        Formula::Binary(_, a, b) => {
            record_plane_reads_of_formula(job, reads, a, region);
            record_plane_reads_of_formula(job, reads, b, region);
        }
        Formula::Ternary(_, a, b, c) => {
            record_plane_reads_of_formula(job, reads, a, region);
            record_plane_reads_of_formula(job, reads, b, region);
            record_plane_reads_of_formula(job, reads, c, region);
        }
        Formula::Select(a, _, b, first, second) => {
            record_plane_reads_of_formula(job, reads, a, region);
            record_plane_reads_of_formula(job, reads, b, region);
            record_plane_reads_of_formula(job, reads, first, region);
            record_plane_reads_of_formula(job, reads, second, region);
        }
        Formula::Stencil(stage, _, kernel) => {
            let samples = region
                .points()
                .saturating_mul(kernel.as_slice().len() as u64);
            record_plane_reads_if_stage_is_plane(
                job,
                reads,
                *stage,
                samples,
                find_plane_read_area_by_kernel(kernel, region),
            );
        }
    }
}

fn record_plane_reads_of_case(job: &Job, reads: &mut [PlaneReads], case: &JobCase, region: &Area) {
    if let Some(area) = case.area() {
        if let Some(common) = area.meet(region) {
            record_plane_reads_of_formula(job, reads, case.formula(), &common);
        }
    }
}

fn record_plane_reads_of_function(
    job: &Job,
    reads: &mut [PlaneReads],
    function: &Function,
    region: &Area,
) {
    for case in function.cases() {
        record_plane_reads_of_case(job, reads, case, region);
    }
    if let Some(formula) = function.otherwise() {
        record_plane_reads_of_formula(job, reads, formula, region);
    }
}

// Adds the reads of a step.
fn record_plane_reads_of_step(job: &Job, reads: &mut [PlaneReads], step: &TileStep) {
    let Some(found) = job.stage(step.stage) else {
        return;
    };
    match found.body() {
        Body::Plane(_) => {}
        Body::Function(function) => record_plane_reads_of_function(
            job, reads, function, &step.area,
        ),
        Body::Accumulator(accumulator) => {
            record_plane_reads_of_formula(job, reads, accumulator.value(), &step.area);
            record_plane_reads_of_formula(job, reads, accumulator.bin(), &step.area);
        }
    }
}

/// Of each plane the area over which these steps read its samples. There is one if they read them repeatedly, row by row,
/// and it has no more points than four times the largest step.
pub fn find_plane_areas_to_convert(job: &Job, steps: &[TileStep]) -> PlaneAreas {
    let mut reads = [PlaneReads::new(); 3];
    let mut largest = 0;
    for step in steps {
        record_plane_reads_of_step(job, &mut reads, step);
        largest = step.area.points().max(largest);
    }
    let most = largest.saturating_mul(4);
    PlaneAreas {
        first: reads[0].find_area_to_convert(most),
        second: reads[1].find_area_to_convert(most),
        third: reads[2].find_area_to_convert(most),
    }
}
