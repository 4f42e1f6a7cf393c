#![tactic(auto)]
//! Planes of a picture as values.

ghost use Rattle.std.specs.Prelude.{◌≡◌, ◌<◌, pos, length, IfOk};
ghost use Rattle.plane_samples.specs.Samples.{count_in, sample_in};
ghost use Rattle.row_loops.specs.Rows.{EachPlace, at};
ghost use Rattle.job.specs.Values.{sample_at};
ghost use Rattle.job.specs.WellFormed.{picture_area};
ghost use Rattle.tile_eval.specs.Raster.{raster};

use netpbm::{Picture, PlaneSamples};
use row_kernels::convert_samples_to_row;
use std::alloc::{AllocError, Global};

// The samples, converted to int32.
fn convert_samples_of_whole_plane(
    alloc: Global,
    samples: &PlaneSamples<'_>,
) -> Result<Vec<i32>, AllocError>
    ensures { IfOk result (λ values. (length values.items ≡ count_in samples.now)
        × EachPlace (count_in samples.now)
        (λ k. at values.items k ≡ pos (sample_in samples.now k))) }
{
    let mut values = vec![in alloc; 0; samples.count()]?;
    convert_samples_to_row(samples, 0, &mut values);
    Ok(values)
}

/// The samples of a plane, row by row.
pub fn convert_whole_plane_of_picture(
    alloc: Global,
    picture: &Picture,
    plane: usize,
) -> Result<Vec<i32>, AllocError>
    requires { plane < length picture.now.planes }
    ensures { IfOk result
        (λ values. values.items ≡ raster (picture_area picture.now) (sample_at picture.now plane)) }
{
    convert_samples_of_whole_plane(alloc, &picture.samples(plane))
}
