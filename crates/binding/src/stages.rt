#![tactic(auto)]
//! The stages that items declare.

ghost use Rattle.std.specs.Prelude.{◌≡◌, ◌<◌, ◌++◌, All, Some, IfOk, OnOk, length, map, slice_get};
ghost use Rattle.std.specs.List.{flat_map};
ghost use Rattle.std.specs.Option.{option_map, ForSome};
ghost use Rattle.pipe_tree.specs.Tree.{function, accumulator, view, branch};
ghost use Rattle.pipe_tree.specs.Tree.{branches, function_of, accumulator_of, declaration, declarations};
ghost use Rattle.binding.specs.Binding.{stage_number, rank_named, variables_of, formula_of, case_of, plane_stage, function_stage};
ghost use Rattle.binding.specs.Binding.{accumulator_stage, names_in, item_stages};
ghost use Rattle.binding.specs.inside.Ranges.{IsRanged, IsRangedBranch, HasBounds, box_in, IsPlaneBounds, HavePlanes, IsReady, AreReady};
ghost use Rattle.job.specs.Views.{formula_view, case_view, stage_view};
ghost use Rattle.binding.specs.inside.Resolving.{program_in, variables_in};

use crate::resolve::{JobResolver, VariableNames};
use job::{Accumulator, Body, Formula, Function, JobCase, Stage};
use pipe_bounds::StageBounds;
use pipe_tokens::Name;
use pipe_tree::{Accum, Case, Expr, Func, Image, Item, Names, Variable};
use std::alloc::AllocError;

// The names of these variables.
fn resolve_variable_pair_to_names(row: &Variable, column: &Variable) -> VariableNames
    ensures { variables_in result ≡ variables_of row.now column.now }
{
    VariableNames {
        row: row.name,
        column: column.name,
    }
}

impl JobResolver<'_> {
    // What was found of the stage of this name.
    fn resolve_name_to_stage_bounds(&self, name: &Name) -> &StageBounds
        requires { stage_number (program_in self.now) name.now < length self.now.found.now }
        ensures { slice_get self.now.found.now (stage_number (program_in self.now) name.now)
            ≡ Some result.now }
    {
        &self.found[self.resolve_name_to_stage_number(name)]
    }

    fn resolve_case(
        &self,
        own: &VariableNames,
        bounds: &StageBounds,
        number: usize,
        case: &Case,
    ) -> Result<JobCase, AllocError>
        requires ranged { IsRangedBranch self.now.tables.now (branch case.now) }
        requires boxed { slice_get bounds.now.boxes number
            ≡ Some (box_in (program_in self.now) (variables_in own.now) bounds.now.domain
            (branch case.now)) }
        ensures { IfOk result (λ p. case_view p
            ≡ case_of (program_in self.now) (variables_in own.now) bounds.now.domain
            (branch case.now)) }
    {
        JobCase::new(
            self.alloc,
            bounds.boxes()[number],
            self.resolve_tests(own, case.condition.tests())?,
            self.resolve_formula(own, &case.value)?,
        )
    }

    fn resolve_cases(
        &self,
        own: &VariableNames,
        bounds: &StageBounds,
        cases: &[Case],
    ) -> Result<Vec<JobCase>, AllocError>
        requires ranged { All (IsRangedBranch self.now.tables.now) (branches cases.now) }
        requires boxed { bounds.now.boxes
            ≡ map (box_in (program_in self.now) (variables_in own.now) bounds.now.domain)
            (branches cases.now) }
        ensures { IfOk result (λ v. map case_view v.items
            ≡ map (case_of (program_in self.now) (variables_in own.now) bounds.now.domain)
            (branches cases.now)) }
    {
        let mut job_cases = Vec::new(self.alloc);
        for (number, case) in cases.iter().enumerate() {
            job_cases.push(self.resolve_case(own, bounds, number, case)?)?;
        }
        Ok(job_cases)
    }

    fn resolve_otherwise_if_any(
        &self,
        own: &VariableNames,
        otherwise: &Option<Expr>,
    ) -> Result<Option<Formula>, AllocError>
        requires { ForSome (option_map view otherwise.now) (IsRanged self.now.tables.now) }
        ensures { IfOk result (λ o. option_map formula_view o
            ≡ option_map (formula_of (program_in self.now) (variables_in own.now))
            (option_map view otherwise.now)) }
    {
        match otherwise {
            Some(value) => Ok(Some(self.resolve_formula(own, value)?)),
            None => Ok(None),
        }
    }

    // The stage of this name, with its bounds and its body.
    fn build_stage(&self, name: &Name, bounds: &StageBounds, body: Body) -> Stage
        ensures { result ≡ record {
          name = name.now;
          rank = rank_named (program_in self.now) name.now;
          domain = bounds.now.domain;
          body = body;
        } }
    {
        Stage::new(
            *name,
            self.resolve_name_to_stage_rank(name),
            *bounds.domain(),
            body,
        )
    }

    fn resolve_plane_stage(&self, image: &Image, name: &Name) -> Result<Stage, AllocError>
        requires { HasBounds (program_in self.now) self.now.found.now name.now
            (IsPlaneBounds (program_in self.now) image.now) }
        ensures { IfOk result
            (λ s. stage_view s ≡ plane_stage (program_in self.now) image.now name.now) }
    {
        let plane = self.resolve_name_to_plane_number(name)?;
        Ok(self.build_stage(
            name,
            self.resolve_name_to_stage_bounds(name),
            Body::Plane(plane),
        ))
    }

    fn resolve_function_stage(&self, func: &Func) -> Result<Stage, AllocError>
        requires { IsReady (program_in self.now) self.now.found.now
            (function (function_of func.now)) }
        ensures { IfOk result
            (λ s. stage_view s ≡ function_stage (program_in self.now) (function_of func.now)) }
    {
        let own = resolve_variable_pair_to_names(&func.row, &func.column);
        let bounds = self.resolve_name_to_stage_bounds(&func.name);
        let job_cases = self.resolve_cases(&own, bounds, func.cases.case_list())?;
        let otherwise = self.resolve_otherwise_if_any(&own, &func.otherwise)?;
        let body = Function::new(self.alloc, job_cases, otherwise)?;
        Ok(self.build_stage(&func.name, bounds, Body::Function(body)))
    }

    fn resolve_accumulator_stage(&self, accum: &Accum) -> Result<Stage, AllocError>
        requires { IsReady (program_in self.now) self.now.found.now
            (accumulator (accumulator_of accum.now)) }
        ensures { IfOk result (λ s. stage_view s
            ≡ accumulator_stage (program_in self.now) (accumulator_of accum.now)) }
    {
        let own = resolve_variable_pair_to_names(&accum.row, &accum.column);
        let bounds = self.resolve_name_to_stage_bounds(&accum.name);
        let value = self.resolve_formula(&own, &accum.value)?;
        let bin = self.resolve_formula(&own, &accum.bin)?;
        let body = Accumulator::new(self.alloc, accum.fold, bounds.bins().unwrap(), value, bin)?;
        Ok(self.build_stage(&accum.name, bounds, Body::Accumulator(body)))
    }

    fn push_plane_stages(&self, stages: &mut Vec<Stage>, image: &Image) -> Result<(), AllocError>
        requires { HavePlanes (program_in self.now) self.now.found.now image.now image.now.names }
        ensures { OnOk result (map stage_view stages.new.items
            ≡ map stage_view stages.old.items
            ++ map (plane_stage (program_in self.now) image.now) (names_in image.now.names)) }
    {
        match &image.names {
            Names::One(name) => {
                stages.push(self.resolve_plane_stage(image, name)?)?;
            }
            Names::Three(red, green, blue) => {
                stages.push(self.resolve_plane_stage(image, red)?)?;
                stages.push(self.resolve_plane_stage(image, green)?)?;
                stages.push(self.resolve_plane_stage(image, blue)?)?;
            }
        }
        Ok(())
    }

    fn push_item_stages(&self, stages: &mut Vec<Stage>, item: &Item) -> Result<(), AllocError>
        requires { IsReady (program_in self.now) self.now.found.now (declaration item.now) }
        ensures { OnOk result (map stage_view stages.new.items
            ≡ map stage_view stages.old.items
            ++ item_stages (program_in self.now) (declaration item.now)) }
    {
        match item {
            Item::Image(image) => self.push_plane_stages(stages, image)?,
            Item::Func(func) => stages.push(self.resolve_function_stage(func)?)?,
            Item::Accum(accum) => stages.push(self.resolve_accumulator_stage(accum)?)?,
            Item::Param(_) | Item::Table(_) | Item::Output(_) => {}
        }
        Ok(())
    }

    /// The stages of all items, in the order of the text.
    pub fn resolve_stages(&self, items: &[Item]) -> Result<Vec<Stage>, AllocError>
        requires { AreReady (program_in self.now) self.now.found.now (declarations items.now) }
        ensures { IfOk result (λ v. map stage_view v.items
            ≡ flat_map (item_stages (program_in self.now)) (declarations items.now)) }
    {
        let mut stages = Vec::new(self.alloc);
        for item in items {
            self.push_item_stages(&mut stages, item)?;
        }
        Ok(stages)
    }
}
