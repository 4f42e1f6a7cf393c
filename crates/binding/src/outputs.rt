#![tactic(auto)]
//! The output, the parameters and the image of a program.

ghost use Rattle.std.specs.Prelude.{◌≡◌, ◌≢◌, IfOk, IfSome, IfNone, map, slice_get, [], ◌∷◌};
ghost use Rattle.std.specs.List.{flat_map};
ghost use Rattle.std.specs.Option.{option_map};
ghost use Rattle.pipe_tree.specs.declared.tree.Image.{Image as ImageType};
ghost use Rattle.pipe_tree.specs.Tree.{declarations};
ghost use Rattle.job.specs.Views.{output_view, parameter_view};
ghost use Rattle.binding.specs.Binding.{stage_number, names_in, item_outputs, item_images, parameter_of};
ghost use Rattle.binding.specs.inside.Resolving.{output_of, program_in};

use crate::resolve::JobResolver;
use job::{Output, Parameter};
use pipe_bounds::Setting;
use pipe_tree::{Image, Item, Names};
use std::alloc::{AllocError, Global};

impl JobResolver<'_> {
    fn resolve_names_to_stage_numbers(&self, names: &Names) -> Result<Vec<usize>, AllocError>
        ensures { IfOk result
            (λ v. v.items ≡ map (stage_number (program_in self.now)) (names_in names.now)) }
    {
        let mut numbers = Vec::new(self.alloc);
        match names {
            Names::One(name) => {
                numbers.push(self.resolve_name_to_stage_number(name))?;
            }
            Names::Three(red, green, blue) => {
                numbers.push(self.resolve_name_to_stage_number(red))?;
                numbers.push(self.resolve_name_to_stage_number(green))?;
                numbers.push(self.resolve_name_to_stage_number(blue))?;
            }
        }
        Ok(numbers)
    }

    fn resolve_output_item(&self, output: &pipe_tree::Output) -> Result<Output, AllocError>
        ensures { IfOk result (λ o. output_view o ≡ output_of (program_in self.now) output.now) }
    {
        Ok(Output::new(
            self.resolve_names_to_stage_numbers(&output.names)?,
            output.max,
        ))
    }

    /// The first output, if there is one.
    pub fn resolve_first_output(&self, items: &[Item]) -> Result<Option<Output>, AllocError>
        ensures { IfOk result (λ o. option_map output_view o
            ≡ slice_get (flat_map (item_outputs (program_in self.now)) (declarations items.now))
            0) }
    {
        for item in items {
            if let Item::Output(output) = item {
                return Ok(Some(self.resolve_output_item(output)?));
            }
        }
        Ok(None)
    }
}

fn resolve_job_parameter(setting: &Setting) -> Parameter
    ensures { parameter_view result ≡ parameter_of setting.now }
{
    Parameter {
        name: setting.name,
        value: setting.value.unwrap_or(0),
    }
}

/// The parameters with their values.
pub(crate) fn resolve_job_parameters(
    alloc: Global,
    settings: &[Setting],
) -> Result<Vec<Parameter>, AllocError>
    ensures { IfOk result (λ v. map parameter_view v.items ≡ map parameter_of settings.now) }
{
    let mut parameters = Vec::new(alloc);
    for setting in settings {
        parameters.push(resolve_job_parameter(setting))?;
    }
    Ok(parameters)
}

/// The image item, where there is exactly one.
pub(crate) fn find_only_declared_picture(items: &[Item]) -> Option<&Image>
    ensures none { IfNone result
        ((i : ImageType) → flat_map item_images (declarations items.now) ≢ i ∷ []) }
    ensures some { IfSome result (λ i. flat_map item_images (declarations items.now) ≡ i.now ∷ []) }
{
    let mut found = None;
    for item in items {
        if let Item::Image(image) = item {
            if found.is_some() {
                return None;
            }
            found = Some(image);
        }
    }
    found
}
