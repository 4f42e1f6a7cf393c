#![tactic(auto)]
//! The bounds of a stage's reads, checked one by one.

ghost use Rattle.std.specs.Prelude.{◌≡◌, length, map};
ghost use Rattle.std.specs.Option.{option_map};
ghost use Rattle.domains.specs.Area.{HoldsPoint};
ghost use Rattle.pipe_tree.specs.Tree.{view, branch, branches, declaration, function, function_of, accumulator, accumulator_of};
ghost use Rattle.pipe_checks.specs.Accesses.{accesses_of};
ghost use Rattle.pipe_bounds.specs.InBounds.{IsInBox, Stays, TellsRead, branch_case, item_cases};
ghost use Rattle.pipe_bounds.specs.StageBounds.{HasBoxes, IsBox, AreBoxes, domains_in};
ghost use Rattle.pipe_bounds.specs.inside.Taken.{AnswersCases, AnswersReads, AreSound, AreSoundCases, IsAnswer, InDomainRanges, IsSound};

use crate::fault::BoundFault;
use crate::params::Params;
use crate::stage_bounds::StageBounds;
use crate::taken::{compute_access_footprint, find_footprint_departure};
use domains::Area;
use pipe_checks::{Access, Symbol, collect_expr_accesses, push_expr_accesses};
use pipe_tokens::Name;
use pipe_tree::{Accum, Case, Expr, Func, Item};
use std::alloc::Global;

/// A stage whose reads are checked.
#[derive(Drop)]
pub(crate) struct BoundsChecker<'a> {
    pub(crate) alloc: Global,
    pub(crate) params: &'a Params,
    pub(crate) stages: &'a [Symbol],
    pub(crate) found: &'a [StageBounds],
    pub(crate) stage: usize,
    pub(crate) domain: &'a Area,
    pub(crate) boxes: &'a [Option<Area>],
}

impl BoundsChecker<'_> {
    fn check_access(
        &self,
        case: usize,
        read: usize,
        access: &Access,
        area: &Area,
    ) -> Result<(), BoundFault>
        requires sound { IsSound (length self.now.found.now) access.now }
        requires near { InDomainRanges area.now }
        ensures { IsAnswer
            (λ _. Stays (domains_in self.now.found.now) (HoldsPoint area.now) access.now)
            (TellsRead (domains_in self.now.found.now) (HoldsPoint area.now) access.now
            self.now.stage case read) result }
    {
        let taken = compute_access_footprint(access, area);
        match find_footprint_departure(&taken, self.found[access.stage()].domain()) {
            Some(departure) => Err(BoundFault::OutOfBounds {
                stage: self.stage,
                case,
                read,
                axis: departure.axis,
                least: departure.least,
                greatest: departure.greatest,
            }),
            None => Ok(()),
        }
    }

    fn check_accesses(
        &self,
        case: usize,
        accesses: &[Access],
        area: &Area,
    ) -> Result<(), BoundFault>
        requires sound { AreSound (length self.now.found.now) accesses.now }
        requires near { InDomainRanges area.now }
        ensures { AnswersReads (domains_in self.now.found.now) (HoldsPoint area.now) accesses.now
            self.now.stage case result }
    {
        for (read, access) in accesses.iter().enumerate() {
            self.check_access(case, read, access, area)?;
        }
        Ok(())
    }

    fn check_expr_reads(&self, case: usize, value: &Expr, area: &Area) -> Result<(), BoundFault>
        requires sound { AreSound (length self.now.found.now)
            (accesses_of self.now.stages.now (view value.now)) }
        requires near { InDomainRanges area.now }
        ensures { AnswersReads (domains_in self.now.found.now) (HoldsPoint area.now)
            (accesses_of self.now.stages.now (view value.now)) self.now.stage case result }
    {
        let accesses = collect_expr_accesses(self.alloc, self.stages, value)?;
        self.check_accesses(case, &accesses, area)
    }

    fn check_case_reads(
        &self,
        number: usize,
        row: &Name,
        case: &Case,
        area: &Option<Area>,
    ) -> Result<(), BoundFault>
        requires sound { AreSound (length self.now.found.now)
            (accesses_of self.now.stages.now (view case.now.value)) }
        requires near { InDomainRanges self.now.domain.now }
        requires area { IsBox self.now.params.now row.now self.now.domain.now
            (branch case.now).condition area.now }
        ensures { AnswersReads (domains_in self.now.found.now)
            (IsInBox self.now.params.now self.now.domain.now
            (branch_case self.now.stages.now row.now (branch case.now)))
            (accesses_of self.now.stages.now (view case.now.value)) self.now.stage number result }
    {
        match area {
            Some(area) => self.check_expr_reads(number, &case.value, area),
            None => Ok(()),
        }
    }

    fn check_cases_reads(&self, row: &Name, cases: &[Case]) -> Result<(), BoundFault>
        requires sound { AreSoundCases (length self.now.found.now)
            (map (branch_case self.now.stages.now row.now) (branches cases.now)) }
        requires near { InDomainRanges self.now.domain.now }
        requires boxes { AreBoxes self.now.params.now row.now self.now.domain.now
            (branches cases.now) self.now.boxes.now }
        ensures { AnswersCases self.now.params.now (domains_in self.now.found.now)
            self.now.domain.now (map (branch_case self.now.stages.now row.now) (branches cases.now))
            self.now.stage result }
    {
        for (number, case) in cases.iter().enumerate() {
            self.check_case_reads(number, row, case, &self.boxes[number])?;
        }
        Ok(())
    }

    fn check_func_reads(&self, func: &Func) -> Result<(), BoundFault>
        requires sound { AreSoundCases (length self.now.found.now)
            (item_cases self.now.stages.now (function (function_of func.now))) }
        requires near { InDomainRanges self.now.domain.now }
        requires boxes { HasBoxes self.now.params.now (function (function_of func.now))
            self.now.domain.now self.now.boxes.now }
        ensures { AnswersCases self.now.params.now (domains_in self.now.found.now)
            self.now.domain.now (item_cases self.now.stages.now (function (function_of func.now)))
            self.now.stage result }
    {
        let cases = func.cases.case_list();
        self.check_cases_reads(&func.row.name, cases)?;
        match &func.otherwise {
            Some(value) => self.check_expr_reads(cases.len(), value, self.domain),
            None => Ok(()),
        }
    }

    fn check_accum_reads(&self, accum: &Accum) -> Result<(), BoundFault>
        requires sound { AreSoundCases (length self.now.found.now)
            (item_cases self.now.stages.now (accumulator (accumulator_of accum.now))) }
        requires near { InDomainRanges self.now.domain.now }
        ensures { AnswersCases self.now.params.now (domains_in self.now.found.now)
            self.now.domain.now
            (item_cases self.now.stages.now (accumulator (accumulator_of accum.now))) self.now.stage
            result }
    {
        let mut found = Vec::new(self.alloc);
        push_expr_accesses(&mut found, self.stages, &accum.value)?;
        push_expr_accesses(&mut found, self.stages, &accum.bin)?;
        self.check_accesses(0, &found, self.domain)
    }

    /// Checks the reads of the stage, which the item declares.
    pub(crate) fn check_item_reads(&self, item: &Item) -> Result<(), BoundFault>
        requires sound { AreSoundCases (length self.now.found.now)
            (item_cases self.now.stages.now (declaration item.now)) }
        requires near { InDomainRanges self.now.domain.now }
        requires boxes { HasBoxes self.now.params.now (declaration item.now) self.now.domain.now
            self.now.boxes.now }
        ensures { AnswersCases self.now.params.now (domains_in self.now.found.now)
            self.now.domain.now (item_cases self.now.stages.now (declaration item.now))
            self.now.stage result }
    {
        match item {
            Item::Func(func) => self.check_func_reads(func),
            Item::Accum(accum) => self.check_accum_reads(accum),
            Item::Param(_) | Item::Image(_) | Item::Table(_) | Item::Output(_) => Ok(()),
        }
    }
}
