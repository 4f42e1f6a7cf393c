#![tactic(auto)]
//! Parameters that are taken from the picture.

ghost use Rattle.std.specs.Prelude.{◌≡◌, IfOk, IfSome, FitsSigned, false};
ghost use Rattle.std.specs.Int.{w32};
ghost use Rattle.std.specs.Option.{option_map_or};
ghost use Rattle.std.specs.Str.{bytes_eq};
ghost use Rattle.binding.specs.Binding.{is_exactly, side_of, settled, settings_for, AreSmall};

use netpbm::Picture;
use pipe_bounds::{Params, Setting};
use pipe_checks::is_same_name;
use pipe_tokens::Name;
use pipe_tree::{Affine, Image};
use std::alloc::{AllocError, Global};

fn is_name_of_sought_parameter(name: &Option<Name>, wanted: &Name) -> bool
    ensures { result ≡ option_map_or (λ x. bytes_eq x wanted.now) name.now false }
{
    match name {
        Some(name) => is_same_name(name, wanted),
        None => false,
    }
}

fn is_extent_sought_parameter_alone(extent: &Affine, name: &Name) -> bool
    ensures { result ≡ is_exactly extent.now name.now }
{
    match extent.terms() {
        [term] => !term.negative
            && term.factor == 1
            && is_name_of_sought_parameter(&term.name, name),
        _ => false,
    }
}

// The side of the picture that is this parameter: its rows first.
fn infer_parameter_from_picture_side(image: &Image, picture: &Picture, name: &Name) -> Option<i32>
    ensures { result ≡ side_of image.now picture.now name.now }
{
    if is_extent_sought_parameter_alone(&image.rows, name) {
        return Some(picture.rows() as i32);
    }
    if is_extent_sought_parameter_alone(&image.columns, name) {
        return Some(picture.cols() as i32);
    }
    None
}

fn keep_value_or_infer_parameter(image: &Image, picture: &Picture, setting: &Setting) -> Option<i32>
    ensures value { result ≡ settled image.now picture.now setting.now.name setting.now.value }
    ensures small { IfSome result (FitsSigned w32) }
{
    match setting.value {
        Some(value) => Some(value),
        None => infer_parameter_from_picture_side(image, picture, &setting.name),
    }
}

/// The parameters, where those without a value are taken from the picture.
pub(crate) fn infer_parameters_from_picture(
    alloc: Global,
    image: &Image,
    picture: &Picture,
    params: &Params,
) -> Result<Params, AllocError>
    ensures settings { IfOk result (λ p. p ≡ settings_for image.now picture.now params.now) }
    ensures small { IfOk result AreSmall }
{
    let mut settings = Vec::new(alloc);
    for setting in params.settings() {
        settings.push(Setting {
            name: setting.name,
            value: keep_value_or_infer_parameter(image, picture, setting),
        })?;
    }
    Ok(Params::from_settings(settings))
}
