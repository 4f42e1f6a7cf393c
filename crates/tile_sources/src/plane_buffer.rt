#![tactic(auto)]
//! Samples of a plane that were converted for a tile.

ghost use Rattle.std.specs.Prelude.{◌≡◌, ◌≤◌, ◌<◌, ◌+ℤ◌, ℕ, ℤ, pos, length, IfSome, IsTrue};
ghost use Rattle.domains.specs.Area.{HoldsPoint, IsSubarea, point_count};
ghost use Rattle.domains.specs.Span.{Holds};
ghost use Rattle.job.specs.Values.{sample_at};
ghost use Rattle.job.specs.WellFormed.{picture_area};
ghost use Rattle.netpbm.specs.Image.{Image};
ghost use Rattle.tile_eval.specs.Raster.{place_of};
ghost use Rattle.tile_eval.specs.Rows.{EachPlace, at};
ghost use Rattle.tile_sources.specs.Wide.{IsWide};

use crate::ranges::borrow_number_range;
use crate::samples::read_plane_row_for_tile;
use domains::{Area, Span};
use netpbm::Picture;
use row_kernels::compute_coordinate_at_place;
use std::alloc::{AllocError, Global};
use tile_eval::BufferView;

/// The samples of a plane over an area as int32, row by row, if an area is named. The memory is reused from tile to tile.
#[derive(Drop)]
pub(crate) struct PlaneBuffer {
    area: Option<Area>,
    samples: Vec<i32>,
}

// How many numbers of a span there are from this one on.
#[tactic(auto, using(std::proofs::lemmas::Int::ints))]
fn count_plane_buffer_columns_from(span: &Span, first: i32) -> usize
    requires { Holds span.now first }
    ensures { (first +ℤ pos result) ≡ span.now.hi +ℤ pos 1 }
{
    (span.hi() - first) as usize + 1
}

// The area of a picture.
fn compute_full_plane_area(picture: &Picture) -> Option<Area>
    ensures { IfSome result (λ area. area ≡ picture_area picture.now) }
{
    let rows = Span::new(0, picture.rows() as i32 - 1)?;
    let cols = Span::new(0, picture.cols() as i32 - 1)?;
    Some(Area { rows, cols })
}

// Whether a picture has this plane, and an area lies within the picture.
fn is_plane_area_in_picture(picture: &Picture, plane: usize, area: &Area) -> bool
    ensures plane { IsTrue result → plane < length picture.now.planes }
    ensures area { IsTrue result → IsSubarea area.now (picture_area picture.now) }
{
    match compute_full_plane_area(picture) {
        Some(whole) => plane < picture.plane_count() && area.inside(&whole),
        None => false,
    }
}

// Converts the samples of a plane over an area of the picture, row by row, from the first number on.
fn write_converted_samples_of_plane_area(
    picture: &Picture,
    plane: usize,
    area: &Area,
    out: &mut [i32],
)
    requires plane { plane < length picture.now.planes }
    requires area { IsSubarea area.now (picture_area picture.now) }
    requires len { point_count area.now ≤ length out.old }
    ensures { (r c : ℤ) → HoldsPoint area.now r c
        → at out.new (place_of area.now r c) ≡ sample_at picture.now plane r c }
{
    let count = area.cols.len() as usize;
    for i in 0..area.rows.len() as usize {
        let from = i * count;
        let row = compute_coordinate_at_place(area.rows.lo(), i);
        let line = &mut out[from..from + count];
        read_plane_row_for_tile(picture, plane, row, area.cols.lo(), line);
    }
}

impl PlaneBuffer {
    /// No samples, and no memory yet.
    pub(crate) fn new(alloc: Global) -> PlaneBuffer {
        PlaneBuffer {
            area: None,
            samples: Vec::new(alloc),
        }
    }

    /// Grows to as many numbers as an area has points, if there are fewer.
    ///
    /// # Errors
    ///
    /// Fails only where memory is refused.
    pub(crate) fn grow(&mut self, area: &Option<Area>) -> Result<(), AllocError> {
        if let Some(area) = area {
            let size = area.points() as usize;
            if self.samples.len() < size {
                self.samples.resize(size, 0)?;
            }
        }
        Ok(())
    }

    /// Converts the samples of a plane over an area, if the picture has it and memory was grown for them; else none.
    pub(crate) fn convert_samples(&mut self, picture: &Picture, plane: usize, area: &Option<Area>)
        ensures { IsWide picture.now plane self.new }
    {
        self.area = None;
        if let Some(area) = area {
            let size = area.points() as usize;
            if size <= self.samples.len() && is_plane_area_in_picture(picture, plane, area) {
                write_converted_samples_of_plane_area(picture, plane, area, &mut self.samples);
                self.area = Some(*area);
            }
        }
    }

    /// `count` samples along a row, from a column on, if the area has them.
    pub(crate) fn borrow_row(&self, row: i32, first: i32, count: usize) -> Option<&[i32]>
        ensures count { IfSome result (λ line. length line.now ≡ count) }
        ensures samples { (picture : Image) (n : ℕ) → IsWide picture n self.now
            → IfSome result (λ line. EachPlace count
            (λ k. at line.now k ≡ sample_at picture n row (first +ℤ pos k))) }
    {
        let area = self.area?;
        if !area.holds(row, first) || count_plane_buffer_columns_from(&area.cols, first) < count {
            return None;
        }
        let samples = borrow_number_range(&self.samples, 0, area.points() as usize)?;
        let view = BufferView::new(area, samples);
        Some(view.slice_row(row, first, count))
    }
}
