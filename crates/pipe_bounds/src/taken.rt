#![tactic(auto)]
//! The indices that a read takes over an area, and where they leave a domain.

ghost use Rattle.std.specs.Prelude.{◌≡◌, ◌≤◌, ◌/◌, ℕ};
ghost use Rattle.domains.specs.Span.{IsSpan};
ghost use Rattle.domains.specs.Area.{IsArea};
ghost use Rattle.domains.specs.Index.{IsIndex, IsImage};
ghost use Rattle.pipe_bounds.specs.InBounds.{scale_of};
ghost use Rattle.pipe_bounds.specs.inside.Taken.{IsWidened, IsTaken, IsDeparting, InDomainRange, InDomainRanges, IsSound};

use crate::fault::Axis;
use crate::index::to_domain_index;
use domains::{Area, Span};
use pipe_checks::Access;

/// The distance from 0 up to which the numbers of domains lie.
const MAX_REACH: i32 = 16384;

/// The indices that a read takes along an axis where it leaves the domain.
#[derive(Clone, Copy)]
pub(crate) struct Departure {
    pub(crate) axis: Axis,
    pub(crate) least: i32,
    pub(crate) greatest: i32,
}

// The numbers that an index takes over a span.
fn compute_index_footprint_along_axis(index: &pipe_tree::Index, span: &Span) -> Span
    requires index { IsIndex (scale_of index.now) }
    requires near { InDomainRange span.now }
    ensures image { IsImage (scale_of index.now) span.now result }
    ensures within { IsSpan span.now }
{
    let (least, greatest) = (span.lo(), span.hi());
    prove!(-MAX_REACH <= least && greatest <= MAX_REACH);
    to_domain_index(index).image(span)
}

// The numbers that a kernel side of this length takes around those of a span.
fn compute_stencil_footprint_along_axis(span: &Span, side: usize) -> Span
    requires near { InDomainRange span.now }
    requires side { side ≤ 15 }
    ensures widened { IsWidened (side / 2) span.now result }
    ensures within { IsSpan span.now }
{
    let (least, greatest) = (span.lo(), span.hi());
    prove!(-MAX_REACH <= least && greatest <= MAX_REACH);
    let reach = (side / 2) as i32;
    match Span::new(least - reach, greatest + reach) {
        Some(taken) => taken,
        None => unreachable!(),
    }
}

/// The rows and columns that a read takes over the points of an area.
pub(crate) fn compute_access_footprint(access: &Access, area: &Area) -> Area
    requires sound { (count : ℕ) × IsSound count access.now }
    requires near { InDomainRanges area.now }
    ensures taken { IsTaken access.now area.now result }
    ensures within { IsArea area.now }
{
    match access {
        Access::Read(_, row, column) => Area {
            rows: compute_index_footprint_along_axis(row, &area.rows),
            cols: compute_index_footprint_along_axis(column, &area.cols),
        },
        Access::Stencil(_, rows, columns) => Area {
            rows: compute_stencil_footprint_along_axis(&area.rows, *rows),
            cols: compute_stencil_footprint_along_axis(&area.cols, *columns),
        },
    }
}

/// The first axis along which the taken indices leave the domain.
pub(crate) fn find_footprint_departure(taken: &Area, domain: &Area) -> Option<Departure>
    ensures { IsDeparting taken.now domain.now result }
{
    if !taken.rows.inside(&domain.rows) {
        return Some(Departure {
            axis: Axis::Rows,
            least: taken.rows.lo(),
            greatest: taken.rows.hi(),
        });
    }
    if !taken.cols.inside(&domain.cols) {
        return Some(Departure {
            axis: Axis::Columns,
            least: taken.cols.lo(),
            greatest: taken.cols.hi(),
        });
    }
    None
}
