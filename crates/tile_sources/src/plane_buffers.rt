#![tactic(auto)]
//! Samples of the planes of a picture that were converted for a tile.

ghost use Rattle.std.specs.Prelude.{◌≡◌, ◌+ℤ◌, pos, length, IfSome};
ghost use Rattle.std.specs.Option.{option_map};
ghost use Rattle.job.specs.Values.{sample_at};
ghost use Rattle.netpbm.specs.Image.{Image};
ghost use Rattle.tile_eval.specs.Rows.{EachPlace, at};
ghost use Rattle.tile_sources.specs.Wide.{AreWide, wide_plane};

use crate::plane_buffer::PlaneBuffer;
use crate::plane_reads::PlaneAreas;
use netpbm::Picture;
use std::alloc::{AllocError, Global};

/// The samples of each plane of a picture over its area as int32.
#[derive(Drop)]
pub struct ThreePlaneBuffers {
    first: PlaneBuffer,
    second: PlaneBuffer,
    third: PlaneBuffer,
}

impl ThreePlaneBuffers {
    /// No samples, and no memory yet.
    pub fn new(alloc: Global) -> ThreePlaneBuffers {
        ThreePlaneBuffers {
            first: PlaneBuffer::new(alloc),
            second: PlaneBuffer::new(alloc),
            third: PlaneBuffer::new(alloc),
        }
    }

    /// Grows to the memory that the samples over these areas need.
    ///
    /// # Errors
    ///
    /// Fails only where memory is refused.
    pub fn grow(&mut self, areas: &PlaneAreas) -> Result<(), AllocError> {
        self.first.grow(&areas.first)?;
        self.second.grow(&areas.second)?;
        self.third.grow(&areas.third)
    }

    /// Converts the samples of each plane over its area, if the picture has it and memory was grown for them.
    pub fn convert_planes(&mut self, picture: &Picture, areas: &PlaneAreas)
        ensures { AreWide picture.now self.new }
    {
        self.first.convert_samples(picture, 0, &areas.first);
        self.second.convert_samples(picture, 1, &areas.second);
        self.third.convert_samples(picture, 2, &areas.third);
    }

    // The converted samples of a plane.
    fn find_plane_buffer(&self, plane: usize) -> Option<&PlaneBuffer>
        ensures { option_map (λ wide. wide.now) result ≡ wide_plane self.now plane }
    {
        match plane {
            0 => Some(&self.first),
            1 => Some(&self.second),
            2 => Some(&self.third),
            _ => None,
        }
    }

    /// `count` samples of a plane along a row, from a column on, if they were converted.
    pub fn borrow_plane_row(
        &self,
        plane: usize,
        row: i32,
        first: i32,
        count: usize,
    ) -> Option<&[i32]>
        ensures count { IfSome result (λ line. length line.now ≡ count) }
        ensures samples { (picture : Image) → AreWide picture self.now
            → IfSome result (λ line. EachPlace count
            (λ k. at line.now k ≡ sample_at picture plane row (first +ℤ pos k))) }
    {
        self.find_plane_buffer(plane)?.borrow_row(row, first, count)
    }
}
