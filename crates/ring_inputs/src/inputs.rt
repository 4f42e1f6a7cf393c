#![tactic(auto)]
//! Planes and rings as a source of the samples that formulas read.

ghost use Rattle.std.specs.Prelude.{◌≡◌, IfSome, IfNone};
ghost use Rattle.job.specs.Kept.{pipeline_in};
ghost use Rattle.job.specs.Values.{value};
ghost use Rattle.ring_inputs.specs.RingInputs.{IsRingInput, IsPlaneInput, IsFunctionInput};

use domains::Index;
use job::Body;
use row_rings::JobRings;
use tile_eval::{RowSource, RowSpan};
use tile_sources::{
    borrow_plane_row_bytes_for_tile, gather_plane_row_for_tile, read_plane_row_for_tile,
    read_plane_sample_for_tile,
};

/// Planes of the picture, and the rows of functions that rings keep as numbers of 32 bits. All that they have is true.
#[derive(Clone, Copy)]
pub struct RingInputs<'r, 'a> {
    pub(crate) rings: &'r JobRings<'a>,
}

impl<'r, 'a> RingInputs<'r, 'a> {
    // The number of the plane that a stage is. None if it is none: then its rows are read in rings.
    fn find_plane_of_ring_input(&self, stage: usize) -> Option<usize>
        ensures some { IfSome result (IsPlaneInput (pipeline_in self.now.rings.now.job.now)
            self.now.rings.now.wide.rings.items stage) }
        ensures none { IfNone result (IsFunctionInput (pipeline_in self.now.rings.now.job.now)
            self.now.rings.now.wide.rings.items stage) }
    {
        let found = self.rings.job_of_rings().stage(stage)?;
        match found.body() {
            Body::Plane(plane) => Some(*plane),
            Body::Function(_) | Body::Accumulator(_) => None,
        }
    }
}

impl<'r, 'a> RowSource for RingInputs<'r, 'a> {
    ghost has = { λ inputs g r c. IsRingInput (pipeline_in inputs.rings.now.job.now)
        inputs.rings.now.wide.rings.items g r c };

    ghost samples = { λ inputs g r c. value (pipeline_in inputs.rings.now.job.now) g r c };

    fn read_row(&self, stage: usize, row: i32, first: i32, out: &mut [i32]) {
        let picture = self.rings.job_of_rings().picture();
        match self.find_plane_of_ring_input(stage) {
            Some(plane) => read_plane_row_for_tile(picture, plane, row, first, out),
            None => self
                .rings
                .borrow_wide_rings()
                .read_row(stage, row, first, out),
        }
    }

    fn borrow_row(&self, stage: usize, row: i32, first: i32, count: usize) -> Option<&[i32]> {
        match self.find_plane_of_ring_input(stage) {
            Some(_) => None,
            None => self
                .rings
                .borrow_wide_rings()
                .borrow_row(stage, row, first, count),
        }
    }

    fn borrow_byte_row(&self, stage: usize, row: i32, first: i32, count: usize) -> Option<&[u8]> {
        let picture = self.rings.job_of_rings().picture();
        let plane = self.find_plane_of_ring_input(stage)?;
        borrow_plane_row_bytes_for_tile(picture, plane, row, first, count)
    }

    fn gather_row(&self, stage: usize, row: i32, col: &Index, points: &RowSpan, out: &mut [i32]) {
        let picture = self.rings.job_of_rings().picture();
        match self.find_plane_of_ring_input(stage) {
            Some(plane) => gather_plane_row_for_tile(picture, plane, row, col, points, out),
            None => self
                .rings
                .borrow_wide_rings()
                .gather_row(stage, row, col, points, out),
        }
    }

    fn read_sample(&self, stage: usize, row: i32, col: i32) -> i32 {
        let picture = self.rings.job_of_rings().picture();
        match self.find_plane_of_ring_input(stage) {
            Some(plane) => read_plane_sample_for_tile(picture, plane, row, col),
            None => self.rings.borrow_wide_rings().read_sample(stage, row, col),
        }
    }
}
