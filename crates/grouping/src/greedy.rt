#![tactic(auto)]
//! Which functions the greedy rule inlines.

ghost use Rattle.std.specs.Prelude.{◌≡◌, ◌≤◌, ◌<◌, ◌+◌, ◌*◌, ◌==◌, false, nat_le, map, length, slice_set, slice_get};
ghost use Rattle.std.specs.Prelude.{slice_index_or, IfOk, OnOk, Some, None};
ghost use Rattle.std.specs.Option.{option_map_or};
ghost use Rattle.std.specs.List.{list_all};
ghost use Rattle.job.specs.Kept.{pipeline_in};
ghost use Rattle.tile_boxes.specs.Order.{backward};
ghost use Rattle.tile_boxes.specs.Schedules.{is_inlined, all_stored, IsSchedule};
ghost use Rattle.tile_boxes.specs.Costs.{cost};
ghost use Rattle.tile_boxes.specs.Costs.{survey_stage_costs, AllFitScratch};
ghost use Rattle.grouping.specs.Greedy.{initial_grouping, find_common_group, group, visited, inlined_if, with_inlined, greedy_inlining};
ghost use Rattle.grouping.specs.inside.Standings.{areas_at, Stands, AllStand, NoneInlinedBelow};
ghost use Rattle.grouping.specs.inside.Trials.{grouping_of, find_kept_cost_of_stored_stage, IsCandidate};
ghost use Rattle.grouping.specs.declared.standing.StageStatus.TheVariants.{Stored, Inlined};

use crate::readers::list_readers_of_stage;
use crate::standing::StageStatus;
use crate::trial::{InlineCandidate, InlineTrial};
use job::Job;
use std::alloc::{AllocError, Global};
use tile_boxes::{InlinedStages, is_function_stage, order_stages_by_rank, survey_stage_costs};

/// What is chosen so far: which functions are inlined, the group of each stage, and the status of each stage.
#[derive(Drop)]
pub(crate) struct Grouper {
    pub(crate) inlining: InlinedStages,
    pub(crate) groups: Vec<usize>,
    pub(crate) standings: Vec<StageStatus>,
}

/// What the greedy rule inlines, and what each stage then costs.
#[derive(Drop)]
pub(crate) struct GreedyChoice {
    pub(crate) inlining: InlinedStages,
    pub(crate) costs: Vec<Option<u64>>,
}

/// The functions that the greedy rule inlines, with the costs.
pub(crate) fn choose_greedy_inlining_with_costs(
    alloc: Global,
    job: &Job,
    percent: u32,
) -> Result<GreedyChoice, AllocError>
    requires percent { percent ≤ 10000 }
    ensures inlining { IfOk result (λ c. c.inlining ≡ greedy_inlining (pipeline_in job.now) percent) }
    ensures schedule { IfOk result (λ c. IsSchedule (pipeline_in job.now) c.inlining) }
    ensures fits { IfOk result (λ c. AllFitScratch (pipeline_in job.now) c.inlining) }
    ensures costs { IfOk result (λ c. c.costs.items ≡ survey_stage_costs (pipeline_in job.now) c.inlining) }
{
    let grouping = group_stages_greedily(alloc, job, percent)?;
    let costs = grouping.list_stage_costs(alloc, job)?;
    Ok(GreedyChoice {
        inlining: grouping.inlining,
        costs,
    })
}

// The grouping when all stages have been visited.
fn group_stages_greedily(alloc: Global, job: &Job, percent: u32) -> Result<Grouper, AllocError>
    requires percent { percent ≤ 10000 }
    ensures inlining { IfOk result (λ c. c.inlining ≡ greedy_inlining (pipeline_in job.now) percent) }
    ensures schedule { IfOk result (λ c. IsSchedule (pipeline_in job.now) c.inlining) }
    ensures fits { IfOk result (λ c. AllFitScratch (pipeline_in job.now) c.inlining) }
    ensures stand { IfOk result
        (λ c. AllStand (pipeline_in job.now) (grouping_of c) c.standings.items) }
{
    let mut order = order_stages_by_rank(alloc, job.stages())?;
    order.reverse();
    let mut grouping = Grouper::new(alloc, job)?;
    for number in &order {
        grouping.inline_function_if_rule_allows(alloc, job, &order, *number, percent)?;
    }
    Ok(grouping)
}

impl Grouper {
    // Each stage is stored.
    fn new(alloc: Global, job: &Job) -> Result<Grouper, AllocError>
        ensures grouping { IfOk result (λ c. grouping_of c
            ≡ initial_grouping (pipeline_in job.now)) }
        ensures stand { IfOk result
            (λ c. AllStand (pipeline_in job.now) (grouping_of c) c.standings.items) }
    {
        let inlining = InlinedStages::all_stored(alloc, job)?;
        let survey = survey_stage_costs(alloc, job, &inlining)?;
        let mut groups = Vec::new(alloc);
        let mut standings = Vec::new(alloc);
        for number in 0..job.stages().len() {
            groups.push(number)?;
            standings.push(new_stored_stage_status(alloc, job, &survey.costs, number)?)?;
        }
        Ok(Grouper {
            inlining,
            groups,
            standings,
        })
    }

    // Inlines a function if the rule allows it.
    fn inline_function_if_rule_allows(
        &mut self,
        alloc: Global,
        job: &Job,
        order: &[usize],
        number: usize,
        percent: u32,
    ) -> Result<(), AllocError>
        requires percent { percent ≤ 10000 }
        requires order { order.now ≡ backward (pipeline_in job.now).stages }
        requires stand { AllStand (pipeline_in job.now) (grouping_of self.old)
            self.old.standings.items }
        requires there { number < length (pipeline_in job.now).stages }
        requires stored { is_inlined self.old.inlining number ≡ false }
        requires behind { NoneInlinedBelow (pipeline_in job.now) self.old.inlining number }
        ensures grouping { OnOk result (grouping_of self.new
            ≡ visited (pipeline_in job.now) percent (grouping_of self.old) number) }
        ensures stand { OnOk result
            (AllStand (pipeline_in job.now) (grouping_of self.new) self.new.standings.items) }
    {
        if !is_function_stage(job, number) || job.is_output(number) {
            return Ok(());
        }
        let readers = list_readers_of_stage(alloc, job, order, number)?;
        let Some(group) = self.find_common_group(&readers) else {
            return Ok(());
        };
        let candidate = InlineCandidate {
            number,
            readers,
            group,
        };
        self.inline_candidate_if_it_pays_and_fits(alloc, job, &candidate, percent)
    }

    // Inlines the function if that pays and each tile of its group then fits in scratch memory.
    fn inline_candidate_if_it_pays_and_fits(
        &mut self,
        alloc: Global,
        job: &Job,
        candidate: &InlineCandidate,
        percent: u32,
    ) -> Result<(), AllocError>
        requires percent { percent ≤ 10000 }
        requires stand { AllStand (pipeline_in job.now) (grouping_of self.old)
            self.old.standings.items }
        requires candidate { IsCandidate (pipeline_in job.now) (grouping_of self.old)
            candidate.now }
        ensures grouping { OnOk result (grouping_of self.new
            ≡ inlined_if (pipeline_in job.now) percent
            (grouping_of self.old) candidate.now.number (Some candidate.now.group)) }
        ensures stand { OnOk result
            (AllStand (pipeline_in job.now) (grouping_of self.new) self.new.standings.items) }
    {
        let trial = self.compute_inline_trial_of_candidate(alloc, job, candidate)?;
        let own = self.find_kept_cost_of_stored_stage(candidate.group);
        let apart = self.find_kept_cost_of_stored_stage(candidate.number);
        if is_inlining_cost_within_percent(own, apart, trial.added, percent)
            && trial.has_fitting_scratch_in_each_tile()
        {
            let points = own + trial.added;
            self.inline_function(candidate, trial, points);
        }
        Ok(())
    }

    // The function is computed in the tiles of its group.
    fn inline_function(&mut self, candidate: &InlineCandidate, trial: InlineTrial, points: u64)
        requires number { candidate.now.number < length self.old.standings.items }
        requires group { candidate.now.group < length self.old.standings.items }
        requires groups { candidate.now.number < length self.old.groups.items }
        ensures grouping { grouping_of self.new
            ≡ with_inlined (grouping_of self.old) candidate.now.number candidate.now.group }
        ensures standings { self.new.standings.items
            ≡ slice_set
            (slice_set self.old.standings.items candidate.now.number (Inlined trial.boxes))
            candidate.now.group (Stored points trial.scratch) }
    {
        self.inlining
            .set_stage_inlined_or_stored(candidate.number, true);
        self.groups[candidate.number] = candidate.group;
        self.standings[candidate.number] = StageStatus::Inlined(trial.boxes);
        self.standings[candidate.group] = StageStatus::Stored(points, trial.scratch);
    }

    // What the tiles of a stored stage take together.
    fn find_kept_cost_of_stored_stage(&self, number: usize) -> u64
        ensures { result ≡ find_kept_cost_of_stored_stage (slice_get self.now.standings.items number) }
    {
        match self.standings.get(number) {
            Some(standing) => standing.cost(),
            None => 0,
        }
    }

    // What each stage costs.
    #[tactic(auto, using(tile_boxes::proofs::Lists::map_range_more))]
    fn list_stage_costs(&self, alloc: Global, job: &Job) -> Result<Vec<Option<u64>>, AllocError>
        requires stand { AllStand (pipeline_in job.now) (grouping_of self.now)
            self.now.standings.items }
        ensures { IfOk result (λ v. v.items ≡ survey_stage_costs (pipeline_in job.now) self.now.inlining) }
    {
        let mut costs = Vec::new(alloc);
        for number in 0..job.stages().len() {
            costs.push(self.find_stage_cost(job, number))?;
        }
        Ok(costs)
    }

    // What a stage costs, from what is kept of it.
    #[tactic(auto, using(crate::proofs::CostsAreKept::none_inlined, crate::proofs::CostsAreKept::none_without_tiles))]
    fn find_stage_cost(&self, job: &Job, number: usize) -> Option<u64>
        requires stand { AllStand (pipeline_in job.now) (grouping_of self.now)
            self.now.standings.items }
        ensures { result ≡ cost (pipeline_in job.now) self.now.inlining number }
    {
        if self.inlining.inlined(number) {
            return None;
        }
        match job.grid(number) {
            Some(_) => Some(self.find_kept_cost_of_stored_stage(number)),
            None => None,
        }
    }

    // The stored stage in whose tiles a stage is computed.
    fn get_group_of_stage(&self, number: usize) -> usize
        ensures { result ≡ group (grouping_of self.now) number }
    {
        match self.groups.get(number) {
            Some(group) => *group,
            None => number,
        }
    }

    // The one group of all these stages, if there are any and they have one.
    fn find_common_group(&self, readers: &[usize]) -> Option<usize>
        ensures { result ≡ find_common_group (grouping_of self.now) readers.now }
    {
        let first = self.get_group_of_stage(*readers.first()?);
        if self.are_all_in_group(first, readers) {
            Some(first)
        } else {
            None
        }
    }

    fn are_all_in_group(&self, place: usize, stages: &[usize]) -> bool
        ensures { result ≡ list_all (λ g. group (grouping_of self.now) g == place) stages.now }
    {
        stages
            .iter()
            .all(|stage| self.get_group_of_stage(*stage) == place)
    }
}

// Whether the group takes few enough points with `added` more.
fn is_inlining_cost_within_percent(own: u64, apart: u64, added: u64, percent: u32) -> bool
    requires { percent ≤ 10000 }
    ensures { result ≡ nat_le (100 * (own + added)) ((100 + percent) * (own + apart)) }
{
    let together = u128::from(own) + u128::from(added);
    let allowed = u128::from(own) + u128::from(apart);
    100 * together <= u128::from(100 + percent) * allowed
}

// A stage that is stored, and in whose tiles nothing is inlined.
fn new_stored_stage_status(
    alloc: Global,
    job: &Job,
    costs: &[Option<u64>],
    number: usize,
) -> Result<StageStatus, AllocError>
    requires costs { costs.now ≡ survey_stage_costs (pipeline_in job.now) (all_stored (pipeline_in job.now)) }
    ensures { IfOk result
        (Stands (pipeline_in job.now) (initial_grouping (pipeline_in job.now)) number) }
{
    let points = find_cost_for_stage_status_or_zero(costs, number);
    Ok(StageStatus::Stored(points, new_zero_scratch_of_group_tiles(alloc, job, number)?))
}

// The cost of a stage, if it has one.
fn find_cost_for_stage_status_or_zero(costs: &[Option<u64>], number: usize) -> u64
    ensures { result ≡ option_map_or (λ n. n) (slice_index_or costs.now number None) 0 }
{
    match costs.get(number) {
        Some(Some(points)) => *points,
        _ => 0,
    }
}

// For each tile of a stage 0 points in scratch memory.
fn new_zero_scratch_of_group_tiles(
    alloc: Global,
    job: &Job,
    number: usize,
) -> Result<Vec<u64>, AllocError>
    ensures { IfOk result (λ v. v.items ≡ map (λ a. 0) (areas_at (pipeline_in job.now) number)) }
{
    vec![in alloc; 0; count_group_tiles(job, number)]
}

/// How many tiles a stage has; planes have none.
pub(crate) fn count_group_tiles(job: &Job, number: usize) -> usize
    ensures { result ≡ length (areas_at (pipeline_in job.now) number) }
{
    match job.grid(number) {
        Some(grid) => grid.tiles() as usize,
        None => 0,
    }
}
