#![tactic(auto)]
//! Parts of the known values of a stage.

ghost use Rattle.std.specs.Prelude.{◌≡◌, ◌<◌, ◌+ℤ◌, pos, map, IfOk};
ghost use Rattle.domains.specs.Area.{IsSubarea};
ghost use Rattle.domains.specs.Span.{len_of, numbers_of};
ghost use Rattle.tile_eval.specs.Raster.{raster};
ghost use Rattle.whole_stages.specs.Known.{buffer_value};

use crate::buffers::StageBuffer;
use domains::Area;
use std::alloc::{AllocError, Global};
use tile_eval::find_span_number_at_position;

impl StageBuffer {
    // The values of a row of an area that lies in the buffer's own, counted from 0.
    fn borrow_area_row(&self, area: &Area, place: u32) -> &[i32]
        requires within { IsSubarea area.now self.now.area }
        requires row { place < len_of area.now.rows }
        ensures { result.now
            ≡ map (buffer_value self.now (area.now.rows.lo +ℤ pos place))
            (numbers_of area.now.cols) }
    {
        let row = find_span_number_at_position(&area.rows, place);
        self.view()
            .slice_row(row, area.cols.lo(), area.cols.len() as usize)
    }

    /// The values of an area that lies in the buffer's own, row by row.
    ///
    /// # Errors
    ///
    /// Fails only where memory is refused.
    pub(crate) fn copy_area_values(
        &self,
        alloc: Global,
        area: &Area,
    ) -> Result<Vec<i32>, AllocError>
        requires { IsSubarea area.now self.now.area }
        ensures { IfOk result (λ values. values.items ≡ raster area.now (buffer_value self.now)) }
    {
        let mut values = Vec::with_capacity(alloc, area.points() as usize)?;
        for place in 0..area.rows.len() {
            values.extend_from_slice(self.borrow_area_row(area, place))?;
        }
        Ok(values)
    }
}
