#![tactic(auto)]
//! Where all that a part reads has a value.

ghost use Rattle.std.specs.Prelude.{◌∷◌, IsTrue, IfSome, map};
ghost use Rattle.job.specs.Kept.{pipeline_in};
ghost use Rattle.job.specs.ReadViews.{read_view};
ghost use Rattle.job.specs.WellFormed.{InDomainRange};
ghost use Rattle.part_stages.specs.Parts.{IsPartArea, IsStageArea};

use crate::part_reads::find_area_of_part_read;
use domains::{Area, Grid, Span};
use job::{Job, Read};

// How many tiles a stage has at most.
const MOST_TILES: u64 = 65_536;

// Where all that one read takes, and then others take, has a value, if there is such a point and it is an area.
fn find_common_area_of_part_reads(job: &Job, first: &Read, rest: &[Read]) -> Option<Area>
    ensures { IfSome result (IsPartArea (pipeline_in job.now) (read_view first.now ∷ map read_view rest.now)) }
{
    let mut area = find_area_of_part_read(job, first)?;
    for read in rest {
        let other = find_area_of_part_read(job, read)?;
        area = area.meet(&other)?;
    }
    Some(area)
}

/// Where all that is read has a value, if there is such a point and it is an area.
pub(crate) fn find_area_of_part_reads(job: &Job, reads: &[Read]) -> Option<Area>
    ensures { IfSome result (IsPartArea (pipeline_in job.now) (map read_view reads.now)) }
{
    let (first, rest) = reads.split_first()?;
    find_common_area_of_part_reads(job, first, rest)
}

// Whether a span may be a side of a domain.
fn is_part_span(span: &Span) -> bool
    ensures { IsTrue result → InDomainRange span.now }
{
    -16_384 <= span.lo() && span.hi() <= 16_384
}

/// Where all that is read has a value, if a stage can have this domain.
pub(crate) fn find_part_area(job: &Job, reads: &[Read]) -> Option<Area>
    ensures { IfSome result (λ area. IsStageArea (pipeline_in job.now) (map read_view reads.now) area) }
{
    let area = find_area_of_part_reads(job, reads)?;
    if !is_part_span(&area.rows) || !is_part_span(&area.cols) {
        return None;
    }
    if Grid::new(area, job.sides()).tiles() <= MOST_TILES {
        Some(area)
    } else {
        None
    }
}
