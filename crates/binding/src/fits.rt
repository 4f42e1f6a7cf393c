#![tactic(auto)]
//! Whether a picture suits a program.

ghost use Rattle.std.specs.Prelude.{◌≡◌, ◌↔◌, IsTrue, IfErr, OnOk, length, pos};
ghost use Rattle.netpbm.specs.Image.{IsImage};
ghost use Rattle.pipe_bounds.specs.Settings.{affine_value};
ghost use Rattle.binding.specs.Binding.{names_in};
ghost use Rattle.binding.specs.Fits.{PlanesFit, ExtentsFit};
ghost use Rattle.binding.specs.BindFaults.{IsPictureFault};

use crate::fault::BindFault;
use netpbm::Picture;
use pipe_bounds::{Params, affine_value};
use pipe_tree::{Affine, Image, Names};

fn count_declared_picture_planes(names: &Names) -> usize
    ensures { result ≡ length (names_in names.now) }
{
    match names {
        Names::One(_) => 1,
        Names::Three(_, _, _) => 3,
    }
}

fn is_declared_picture_side(params: &Params, extent: &Affine, side: u32) -> bool
    ensures { IsTrue result ↔ (affine_value params.now extent.now ≡ pos side) }
{
    affine_value(params, extent) == i128::from(side)
}

fn has_declared_picture_extents(params: &Params, image: &Image, picture: &Picture) -> bool
    ensures { IsTrue result ↔ ExtentsFit params.now image.now picture.now }
{
    is_declared_picture_side(params, &image.rows, picture.rows())
        && is_declared_picture_side(params, &image.columns, picture.cols())
}

fn has_declared_picture_plane_count(image: &Image, picture: &Picture) -> bool
    ensures image { IsImage picture.now }
    ensures fit { IsTrue result ↔ PlanesFit image.now picture.now }
{
    count_declared_picture_planes(&image.names) == picture.plane_count()
}

/// Whether the picture has the planes and the extents of the program.
pub(crate) fn check_declared_picture_shape(
    params: &Params,
    image: &Image,
    picture: &Picture,
) -> Result<(), BindFault>
    ensures ok { OnOk result
        (PlanesFit image.now picture.now × ExtentsFit params.now image.now picture.now) }
    ensures image { IsImage picture.now }
    ensures fault { IfErr result (IsPictureFault params.now image.now picture.now) }
{
    if !has_declared_picture_plane_count(image, picture) {
        return Err(BindFault::Planes);
    }
    if !has_declared_picture_extents(params, image, picture) {
        return Err(BindFault::ExtentMismatch);
    }
    Ok(())
}
