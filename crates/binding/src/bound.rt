#![tactic(auto)]
//! From a program, the values of its parameters and a picture to a job.

ghost use Rattle.std.specs.Prelude.{◌≡◌, ◌≢◌, ◌⊎◌, [], ◌∷◌, IfOk, IfErr, OnOk, map};
ghost use Rattle.pipe_tree.specs.Content.{content};
ghost use Rattle.pipe_checks.specs.Checking.{IsCheckedOf, tree_in, params_in};
ghost use Rattle.pipe_checks.specs.Names.{stages_of};
ghost use Rattle.pipe_bounds.specs.InBounds.{IsInBounds};
ghost use Rattle.pipe_bounds.specs.StageBounds.{AreBoundsOf};
ghost use Rattle.binding.specs.declared.fault.BindFault.TheVariants.{Bounds, Memory};
ghost use Rattle.binding.specs.Fits.{PlanesFit, ExtentsFit};
ghost use Rattle.binding.specs.BindFaults.{IsUnnamed, IsEarlyFault, IsBound, IsBindFault, program_of};
ghost use Rattle.std.specs.List.{flat_map};
ghost use Rattle.binding.specs.Binding.{item_images, item_tables, TablesFit, AreSmallTables, IsJobOf};
ghost use Rattle.netpbm.specs.Image.{IsImage};
ghost use Rattle.job.specs.WellFormed.{IsJob};
ghost use Rattle.binding.specs.inside.Parts.{ArePartsOf, AreBoundParts, IsPartsFault};
ghost use Rattle.job.specs.Kept.{pipeline_in, program_text_in, program_id_in};
ghost use Rattle.sha2.specs.Sha256.{sha256};
ghost use Rattle.pipe_print.specs.Canonical.{canonical};

use crate::fault::BindFault;
use crate::fits::check_declared_picture_shape;
use crate::handed::{find_index_of_mismatched_supplied_table, prove_supplied_tables_fit_i32};
use crate::outputs::{find_only_declared_picture, resolve_job_parameters};
use crate::resolve::JobResolver;
use crate::settings::infer_parameters_from_picture;
use crate::sizes::find_bind_fault_of_sizes;
use domains::TileSides;
use job::{BoundPipeline, Job, Output, Parameter, Stage, Table};
use netpbm::Picture;
use pipe_bounds::{BoundFault, Params, StageBounds, find_program_bounds};
use pipe_checks::Checked;
use pipe_print::print;
use pipe_tree::Image;
use std::alloc::{AllocError, Global};

/// A job without its picture.
#[derive(Drop)]
struct JobParts {
    stages: Vec<Stage>,
    output: Option<Output>,
    params: Vec<Parameter>,
}

fn convert_bound_fault_to_bind_fault(fault: BoundFault) -> BindFault
    ensures { ((fault ≡ BoundFault.Memory) × (result ≡ Memory))
        ⊎ ((fault ≢ BoundFault.Memory) × (result ≡ Bounds fault)) }
{
    match fault {
        BoundFault::Memory => BindFault::Memory,
        other => BindFault::Bounds(other),
    }
}

fn resolve_job_parts(
    alloc: Global,
    checked: &Checked,
    params: &Params,
    tables: &[Table],
    found: &[StageBounds],
) -> Result<JobParts, AllocError>
    requires found { AreBoundsOf params.now (content (tree_in checked.now))
        (stages_of (content (tree_in checked.now))) found.now }
    requires bounds { IsInBounds params.now (content (tree_in checked.now)) }
    requires tables { TablesFit params.now (flat_map item_tables (content (tree_in checked.now)))
        tables.now }
    ensures { IfOk result
        (ArePartsOf (program_of checked.now params.now tables.now) (content (tree_in checked.now))) }
{
    let resolver = JobResolver {
        alloc,
        checked,
        params,
        found,
        tables,
    };
    let items = checked.tree().items();
    Ok(JobParts {
        stages: resolver.resolve_stages(items)?,
        output: resolver.resolve_first_output(items)?,
        params: resolve_job_parameters(alloc, params.settings())?,
    })
}

// What is found of the stages, if the program is in bounds and the tables and the picture fit.
fn find_bounds_and_check_job_part_inputs(
    alloc: Global,
    checked: &Checked,
    params: &Params,
    tables: &[Table],
    image: &Image,
    picture: &Picture,
) -> Result<Vec<StageBounds>, BindFault>
    ensures found { IfOk result (λ v. AreBoundsOf params.now (content (tree_in checked.now))
        (stages_of (content (tree_in checked.now))) v.items) }
    ensures bounds { OnOk result (IsInBounds params.now (content (tree_in checked.now))) }
    ensures tables { OnOk result
        (TablesFit params.now (flat_map item_tables (content (tree_in checked.now))) tables.now) }
    ensures numbers { OnOk result (AreSmallTables tables.now) }
    ensures image { OnOk result (IsImage picture.now) }
    ensures picture { OnOk result
        (PlanesFit image.now picture.now × ExtentsFit params.now image.now picture.now) }
    ensures fault { IfErr result (λ f. (f ≡ Memory)
        ⊎ IsEarlyFault params.now (content (tree_in checked.now)) tables.now image.now picture.now
        f) }
{
    match find_program_bounds(alloc, checked, params) {
        Ok(found) => {
            if let Some(table) = find_index_of_mismatched_supplied_table(
                params,
                checked.tree().items(),
                tables,
            ) {
                return Err(BindFault::TableMismatch(table));
            }
            prove_supplied_tables_fit_i32(tables);
            check_declared_picture_shape(params, image, picture)?;
            Ok(found.stages)
        }
        Err(fault) => Err(convert_bound_fault_to_bind_fault(fault)),
    }
}

fn build_job_parts_for_image(
    alloc: Global,
    checked: &Checked,
    params: &Params,
    tables: &[Table],
    image: &Image,
    picture: &Picture,
) -> Result<JobParts, BindFault>
    requires { flat_map item_images (content (tree_in checked.now)) ≡ image.now ∷ [] }
    ensures ok { IfOk result (AreBoundParts (content (tree_in checked.now))
        (program_of checked.now params.now tables.now) picture.now) }
    ensures fault { IfErr result (λ f. (f ≡ Memory)
        ⊎ IsPartsFault (content (tree_in checked.now))
        (program_of checked.now params.now tables.now)
        picture.now f) }
{
    let settled = infer_parameters_from_picture(alloc, image, picture, params)?;
    let found = find_bounds_and_check_job_part_inputs(
        alloc, checked, &settled, tables, image, picture,
    )?;
    match resolve_job_parts(alloc, checked, &settled, tables, &found) {
        Ok(parts) => Ok(parts),
        Err(_) => Err(BindFault::Memory),
    }
}

fn build_job_parts(
    alloc: Global,
    checked: &Checked,
    params: &Params,
    tables: &[Table],
    picture: &Picture,
) -> Result<JobParts, BindFault>
    ensures checked { IsCheckedOf (tree_in checked.now) checked.now }
    ensures ok { IfOk result (AreBoundParts (content (tree_in checked.now))
        (program_of checked.now params.now tables.now) picture.now) }
    ensures fault { IfErr result (λ f. (f ≡ Memory)
        ⊎ (IsUnnamed (content (tree_in checked.now)) f
        ⊎ IsPartsFault (content (tree_in checked.now))
        (program_of checked.now params.now tables.now)
        picture.now f)) }
{
    match find_only_declared_picture(checked.tree().items()) {
        Some(image) => build_job_parts_for_image(alloc, checked, params, tables, image, picture),
        None => Err(BindFault::Planes),
    }
}

/// The job of a program with values of its parameters, its tables, a picture and the sides of tiles. A parameter without a value
/// is a side of the picture if an extent is this parameter alone. Otherwise the first fault, and what was supplied. Faults have
/// the order of `BindFault`, except that `TableMismatch` is the second. The text is hashed; the tables and the picture are not.
pub fn bind(
    alloc: Global,
    checked: Checked,
    params: &Params,
    tables: Vec<Table>,
    picture: Picture,
    sides: TileSides,
) -> Result<Job, (Checked, Vec<Table>, Picture, BindFault)>
    ensures ok { IfOk result (λ job. IsBound (content (tree_in checked))
        (program_of checked params.now tables.items) picture sides (pipeline_in job)) }
    ensures job { IfOk result (λ job. IsJob (pipeline_in job)) }
    ensures says { IfOk result (λ job. map (λ s. s.name) params.now
        ≡ map (λ d. d.name) (params_in checked)
        → IsJobOf (content (tree_in checked)) params.now tables.items picture sides
        (pipeline_in job)) }
    ensures text { IfOk result
        (λ job. program_text_in job ≡ canonical (content (tree_in checked))) }
    ensures program { IfOk result
        (λ job. program_id_in job ≡ sha256 (canonical (content (tree_in checked)))) }
    ensures back { IfErr result
        (λ e. (e.0 ≡ checked) × (e.1 ≡ tables) × (e.2 ≡ picture)) }
    ensures fault { IfErr result (λ e. IsBindFault (content (tree_in checked))
        (program_of checked params.now tables.items) picture sides e.3) }
{
    match build_job_parts(alloc, &checked, params, &tables, &picture) {
        Ok(parts) => {
            let _ = sides.height();
            let pipeline = BoundPipeline {
                stages: parts.stages,
                output: parts.output,
                params: parts.params,
                tables,
                picture,
                sides,
            };
            match find_bind_fault_of_sizes(&pipeline) {
                Some(fault) => Err((checked, pipeline.tables, pipeline.picture, fault)),
                None => match print(alloc, checked.tree()) {
                    Ok(text) => Ok(Job::new(pipeline, text)),
                    Err(AllocError) => {
                        Err((
                            checked,
                            pipeline.tables,
                            pipeline.picture,
                            BindFault::Memory,
                        ))
                    }
                },
            }
        }
        Err(fault) => Err((checked, tables, picture, fault)),
    }
}
