#![tactic(auto)]
//! The domains of stages, the bins of accumulators, and the spans of tables.

ghost use Rattle.std.specs.Prelude.{◌≡◌, None};
ghost use Rattle.pipe_bounds.specs.Domains.{IsInterval, IsExtent, IsBins, IsArea, IsSpanOf};
ghost use Rattle.pipe_bounds.specs.Settings.{affine_value};
ghost use Rattle.pipe_bounds.specs.inside.Taken.{IsItemSpan, IsPlaced};
ghost use Rattle.pipe_tree.specs.Tree.{declaration, accumulator, accumulator_of};

use crate::affine::affine_value;
use crate::params::Params;
use domains::{Area, Span};
use pipe_tree::{Accum, Affine, AffineSpan, Func, Image, Item};

/// The ends of a domain, of bins and of a table are from `-MAX_END` to `MAX_END`.
const MAX_END: i128 = 16384;

/// The greatest extent of a picture, and the most bins or entries of a table.
const MAX_SIZE: i128 = 4096;

/// Why two ends are not those of an interval.
#[derive(Clone, Copy, Debug, PartialEq, Eq)]
pub(crate) enum IntervalFault {
    /// Its last number is below its first.
    Empty,
    /// It leaves `-MAX_END` to `MAX_END`, or is too long.
    TooWide,
}

/// The domain of a plane or a function; the reduction domain of an accumulator, and its bins.
#[derive(Clone, Copy, Debug)]
pub(crate) struct StageDomain {
    pub(crate) domain: Area,
    pub(crate) bins: Option<Span>,
}

fn build_interval_within_limits(first: i128, last: i128) -> Result<Span, IntervalFault>
    ensures { IsInterval first last result }
{
    if last < first {
        return Err(IntervalFault::Empty);
    }
    if first < -MAX_END || MAX_END < last {
        return Err(IntervalFault::TooWide);
    }
    match Span::new(first as i32, last as i32) {
        Some(span) => Ok(span),
        None => unreachable!(),
    }
}

fn affine_interval(params: &Params, span: &AffineSpan) -> Result<Span, IntervalFault>
    ensures { IsInterval (affine_value params.now span.now.first)
        (affine_value params.now span.now.last) result }
{
    build_interval_within_limits(
        affine_value(params, &span.first),
        affine_value(params, &span.last),
    )
}

fn build_interval_of_extent(side: i128) -> Result<Span, IntervalFault>
    ensures { IsExtent side result }
{
    if side < 1 {
        return Err(IntervalFault::Empty);
    }
    if MAX_SIZE < side {
        return Err(IntervalFault::TooWide);
    }
    build_interval_within_limits(0, side - 1)
}

fn affine_interval_of_extent(params: &Params, side: &Affine) -> Result<Span, IntervalFault>
    ensures { IsExtent (affine_value params.now side.now) result }
{
    build_interval_of_extent(affine_value(params, side))
}

// The bins of an accumulator, or the span of a table.
fn affine_interval_of_limited_length(
    params: &Params,
    span: &AffineSpan,
) -> Result<Span, IntervalFault>
    ensures { IsBins (affine_value params.now span.now.first)
        (affine_value params.now span.now.last) result }
{
    let bins = affine_interval(params, span)?;
    if i128::from(bins.len()) <= MAX_SIZE {
        Ok(bins)
    } else {
        Err(IntervalFault::TooWide)
    }
}

fn compute_stage_domain_of_image(params: &Params, image: &Image) -> Result<Area, IntervalFault>
    ensures { IsArea (IsExtent (affine_value params.now image.now.rows))
        (IsExtent (affine_value params.now image.now.columns)) result }
{
    let rows = affine_interval_of_extent(params, &image.rows)?;
    let cols = affine_interval_of_extent(params, &image.columns)?;
    Ok(Area { rows, cols })
}

fn compute_stage_domain_of_func(params: &Params, func: &Func) -> Result<Area, IntervalFault>
    ensures { IsArea (IsSpanOf params.now func.now.row.span)
        (IsSpanOf params.now func.now.column.span) result }
{
    let rows = affine_interval(params, &func.row.span)?;
    let cols = affine_interval(params, &func.column.span)?;
    Ok(Area { rows, cols })
}

fn compute_stage_domain_of_accum(
    params: &Params,
    accum: &Accum,
) -> Result<StageDomain, IntervalFault>
    ensures { IsPlaced params.now (accumulator (accumulator_of accum.now)) result }
{
    let bins = affine_interval_of_limited_length(params, &accum.bins)?;
    let rows = affine_interval(params, &accum.row.span)?;
    let cols = affine_interval(params, &accum.column.span)?;
    Ok(StageDomain {
        domain: Area { rows, cols },
        bins: Some(bins),
    })
}

fn build_stage_domain_without_bins(domain: Area) -> StageDomain
    ensures { result ≡ record { domain = domain; bins = None } }
{
    StageDomain { domain, bins: None }
}

/// The domain, and the bins if any, of the stages that an item declares.
pub(crate) fn compute_stage_domain_of_item(
    params: &Params,
    item: &Item,
) -> Result<StageDomain, IntervalFault>
    ensures { IsPlaced params.now (declaration item.now) result }
{
    match item {
        Item::Image(image) => Ok(build_stage_domain_without_bins(compute_stage_domain_of_image(
            params, image,
        )?)),
        Item::Func(func) => Ok(build_stage_domain_without_bins(compute_stage_domain_of_func(
            params, func,
        )?)),
        Item::Accum(accum) => compute_stage_domain_of_accum(params, accum),
        Item::Param(_) | Item::Table(_) | Item::Output(_) => Err(IntervalFault::Empty),
    }
}

/// The span of the table that an item declares.
pub(crate) fn compute_table_bounds(params: &Params, item: &Item) -> Result<Span, IntervalFault>
    ensures { IsItemSpan params.now (declaration item.now) result }
{
    match item {
        Item::Table(table) => affine_interval_of_limited_length(params, &table.span),
        Item::Param(_) | Item::Image(_) | Item::Func(_) | Item::Accum(_) | Item::Output(_) => Err(
            IntervalFault::Empty,
        ),
    }
}
