#![tactic(auto)]
//! Which parts of a job's formulas become stages. No clause speaks of the choice: each part may become one or not.

ghost use Rattle.std.specs.Prelude.{OnOk, IfOk, IfSome};
ghost use Rattle.job.specs.Kept.{pipeline_in};
ghost use Rattle.part_stages.specs.HasMore.{HasMore};
ghost use Rattle.part_stages.specs.Parts.{ArePartStages};

use crate::column_kernels::{
    find_column_stage_product, has_column_stage, make_column_stage_formula,
};
use crate::part_counts::{PartForms, find_formula_of_part_forms, is_most_of_part_area};
use crate::part_forms::PartForm;
use crate::part_quotients::{is_light_beside_part_quotients, is_part_quotient};
use crate::part_ranks::has_own_part_reads;
use crate::part_stages::PartStages;
use job::{Body, Formula, Job, Read, Stage};
use std::alloc::{AllocError, Global};

/// What was found of a job.
#[derive(Drop)]
struct PartFinder {
    parts: PartStages,
    // Whether a stage is known that some formula will read.
    is_found: bool,
    // The place of the part that is looked at next.
    place: usize,
    // Whether quotients that are parts of its formula become stages: this is none itself, and all else fits in 16 bits.
    has_quotients: bool,
}

// The stages of a job of which parts of formulas are the formulas.
fn list_whole_parts(alloc: Global, job: &Job, forms: &PartForms) -> Result<PartStages, AllocError>
    ensures { IfOk result (λ parts. ArePartStages (pipeline_in job.now) parts) }
{
    let mut parts = PartStages {
        stages: Vec::new(alloc),
        known: Vec::new(alloc),
    };
    for number in 0..job.stages().len() {
        if forms.is_whole_part(number) {
            parts.push_whole_part(alloc, job, number)?;
        }
    }
    Ok(parts)
}

// Whether a stage reads at least half of the rows and columns of the one that a part reads first.
fn reads_most_of_repeated_part(job: &Job, reader: &Stage, form: PartForm) -> bool {
    let Some((source, _, _)) = form.place else {
        return false;
    };
    match job.stage(source) {
        Some(from) => is_most_of_part_area(reader.domain(), from.domain()),
        None => false,
    }
}

// Whether a function has cases, so that its formulas may be the formulas of other stages.
fn has_case_parts(reader: &Stage) -> bool {
    match reader.body() {
        Body::Function(function) => !function.cases().is_empty(),
        Body::Plane(_) | Body::Accumulator(_) => false,
    }
}

impl PartFinder {
    // Adds the stage of the column of a kernel that is read, if two steps are faster.
    fn find_column_stage_of_read(
        &mut self,
        alloc: Global,
        job: &Job,
        reader: &Stage,
        read: &Read,
    ) -> Result<(), AllocError>
        ensures { OnOk result (ArePartStages (pipeline_in job.now) self.old.parts
            → ArePartStages (pipeline_in job.now) self.new.parts) }
    {
        let Some((source, product)) = find_column_stage_product(job, reader, read) else {
            return Ok(());
        };
        let down = product.borrow_factor_of_each_row();
        if has_column_stage(&self.parts.known, source, down) {
            self.is_found = true;
            return Ok(());
        }
        let formula = make_column_stage_formula(alloc, source, down)?;
        if self.parts.push_part_stage(alloc, job, &formula)? {
            self.is_found = true;
        }
        Ok(())
    }

    // Adds the stages of the columns of the kernels that a stage reads.
    fn find_column_stages_of_reader(
        &mut self,
        alloc: Global,
        job: &Job,
        reader: &Stage,
    ) -> Result<(), AllocError>
        ensures { OnOk result (ArePartStages (pipeline_in job.now) self.old.parts
            → ArePartStages (pipeline_in job.now) self.new.parts) }
    {
        for read in reader.reads() {
            self.find_column_stage_of_read(alloc, job, reader, read)?;
        }
        Ok(())
    }

    // Adds the stages of the columns of all kernels.
    fn find_column_stages(&mut self, alloc: Global, job: &Job) -> Result<(), AllocError>
        ensures { OnOk result (ArePartStages (pipeline_in job.now) self.old.parts
            → ArePartStages (pipeline_in job.now) self.new.parts) }
    {
        for reader in job.stages() {
            self.find_column_stages_of_reader(alloc, job, reader)?;
        }
        Ok(())
    }

    // Adds the stage of a part, if it is worth while. Whether there is one.
    fn find_repeated_part(
        &mut self,
        alloc: Global,
        job: &Job,
        forms: &PartForms,
        reader: &Stage,
        form: PartForm,
        formula: &Formula,
    ) -> Result<bool, AllocError>
        ensures { OnOk result (ArePartStages (pipeline_in job.now) self.old.parts
            → ArePartStages (pipeline_in job.now) self.new.parts) }
    {
        if !form.is_candidate {
            return Ok(false);
        }
        if self.parts.has_part_formula(formula) {
            self.is_found = true;
            return Ok(true);
        }
        let is_wanted = forms.is_repeated_part(form)
            || self.has_quotients && is_part_quotient(formula);
        if !is_wanted || !reads_most_of_repeated_part(job, reader, form) {
            return Ok(false);
        }
        let is_made = self.parts.push_part_stage(alloc, job, formula)?;
        self.is_found = self.is_found || is_made;
        Ok(is_made)
    }

    // Adds the stage of a formula of a function with cases, if there is none. Whether there is one.
    fn find_case_part(
        &mut self,
        alloc: Global,
        job: &Job,
        forms: &PartForms,
        reader: &Stage,
        formula: &Formula,
    ) -> Result<bool, AllocError>
        ensures { OnOk result (ArePartStages (pipeline_in job.now) self.old.parts
            → ArePartStages (pipeline_in job.now) self.new.parts) }
    {
        let Some(form) = forms.part_form(self.place) else {
            return Ok(false);
        };
        if !form.is_near || !reads_most_of_repeated_part(job, reader, form) {
            return Ok(false);
        }
        if !self.parts.has_part_formula(formula)
            && !self.parts.push_part_stage(alloc, job, formula)?
        {
            return Ok(false);
        }
        self.is_found = true;
        self.place = self.place.saturating_add(form.size);
        Ok(true)
    }

    // Adds the stages of the parts of a formula: of all of it, where it is a quotient beside other cases.
    fn find_case_or_repeated_parts(
        &mut self,
        alloc: Global,
        job: &Job,
        forms: &PartForms,
        reader: &Stage,
        formula: &Formula,
    ) -> Result<(), AllocError>
        ensures { OnOk result (ArePartStages (pipeline_in job.now) self.old.parts
            → ArePartStages (pipeline_in job.now) self.new.parts) }
    {
        let is_quotient = is_part_quotient(formula);
        self.has_quotients = !is_quotient && is_light_beside_part_quotients(formula);
        let is_case = is_quotient && has_case_parts(reader);
        if is_case && self.find_case_part(alloc, job, forms, reader, formula)? {
            return Ok(());
        }
        self.find_repeated_parts_of_formula(alloc, job, forms, reader, formula)
    }

    // Adds the stages of the repeated parts of a formula.
    fn find_repeated_parts_of_formula(
        &mut self,
        alloc: Global,
        job: &Job,
        forms: &PartForms,
        reader: &Stage,
        formula: &Formula,
    ) -> Result<(), AllocError>
        ensures { OnOk result (ArePartStages (pipeline_in job.now) self.old.parts
            → ArePartStages (pipeline_in job.now) self.new.parts) }
    {
        let Some(form) = forms.part_form(self.place) else {
            return Ok(());
        };
        if self.find_repeated_part(alloc, job, forms, reader, form, formula)? {
            self.place = self.place.saturating_add(form.size);
            return Ok(());
        }
        self.place = self.place.saturating_add(1);
        match formula {
            Formula::Number(_)
            | Formula::Coordinate(_)
            | Formula::Read(_, _, _)
            | Formula::Stencil(_, _, _) => Ok(()),
            Formula::Unary(_, of) | Formula::Literal(_, of, _) | Formula::Lookup(_, of) => {
                self.find_repeated_parts_of_formula(alloc, job, forms, reader, of)
            }
            Formula::Binary(_, left, right) => {
                self.find_repeated_parts_of_formula(alloc, job, forms, reader, left)?;
                self.find_repeated_parts_of_formula(alloc, job, forms, reader, right)
            }
            Formula::Ternary(_, first, second, third) => {
                self.find_repeated_parts_of_formula(alloc, job, forms, reader, first)?;
                self.find_repeated_parts_of_formula(alloc, job, forms, reader, second)?;
                self.find_repeated_parts_of_formula(alloc, job, forms, reader, third)
            }
            Formula::Select(left, _, right, then, otherwise) => {
                self.find_repeated_parts_of_formula(alloc, job, forms, reader, left)?;
                self.find_repeated_parts_of_formula(alloc, job, forms, reader, right)?;
                self.find_repeated_parts_of_formula(alloc, job, forms, reader, then)?;
                self.find_repeated_parts_of_formula(alloc, job, forms, reader, otherwise)
            }
        }
    }

    // Adds the stages of the repeated parts of a function.
    fn find_repeated_parts_of_stage(
        &mut self,
        alloc: Global,
        job: &Job,
        forms: &PartForms,
        number: usize,
        reader: &Stage,
    ) -> Result<(), AllocError>
        ensures { OnOk result (ArePartStages (pipeline_in job.now) self.old.parts
            → ArePartStages (pipeline_in job.now) self.new.parts) }
    {
        for place in 0..forms.count_part_formulas(number, reader) {
            if let Some(formula) = find_formula_of_part_forms(reader, place) {
                self.find_case_or_repeated_parts(alloc, job, forms, reader, formula)?;
            }
        }
        Ok(())
    }

    // Adds the stages of the repeated parts of a job.
    fn find_repeated_parts(
        &mut self,
        alloc: Global,
        job: &Job,
        forms: &PartForms,
    ) -> Result<(), AllocError>
        ensures { OnOk result (ArePartStages (pipeline_in job.now) self.old.parts
            → ArePartStages (pipeline_in job.now) self.new.parts) }
    {
        for (number, reader) in job.stages().iter().enumerate() {
            self.find_repeated_parts_of_stage(alloc, job, forms, number, reader)?;
        }
        Ok(())
    }
}

/// Stages for the parts that formulas of a job repeat, for quotients that are computed in 16 bits only as functions of their own, and
/// for the columns of its kernels that are products of a column and a row and are faster in two steps, to stand behind its own. None
/// where there is nothing of the kind.
///
/// # Errors
///
/// Fails only where memory is refused.
pub fn find_part_stages(alloc: Global, job: &Job) -> Result<Option<PartStages>, AllocError>
    ensures { IfOk result (λ found. IfSome found (λ parts. HasMore (pipeline_in job.now) parts)) }
{
    if !has_own_part_reads(job) {
        return Ok(None);
    }
    let forms = PartForms::from_job(alloc, job)?;
    let mut finder = PartFinder {
        parts: list_whole_parts(alloc, job, &forms)?,
        is_found: false,
        place: 0,
        has_quotients: false,
    };
    finder.find_column_stages(alloc, job)?;
    finder.find_repeated_parts(alloc, job, &forms)?;
    let PartFinder {
        parts,
        is_found,
        ..
    } = finder;
    if is_found { Ok(Some(parts)) } else { Ok(None) }
}
