#![tactic(auto)]
//! Totals that are accumulated from partials, wherever these were made.

ghost use Rattle.std.specs.Prelude.{◌≡◌, ◌++◌, ◌∷◌, [], false, ℕ, ℤ, List, length, IfSome, IfNone, IfOk};
ghost use Rattle.domains.specs.Span.{len_of};
ghost use Rattle.job.specs.Kept.{pipeline_in};
ghost use Rattle.job.specs.Pipeline.{Pipeline};
ghost use Rattle.tile_run.specs.Work.{is_accumulator_at};
ghost use Rattle.reductions.specs.Bins.{starts as starts_by, joined_bins};
ghost use Rattle.accumulators.specs.Answers.{gathered};
ghost use Rattle.accumulators.specs.Gatherings.{HasTaken, gathered_from};

use crate::answer::Total;
use crate::running::RunningTotal;
use domains::Span;
use job::Job;
use operators::ReductionOp;
use reductions::{create_start_bins, join_into};
use std::alloc::{AllocError, Global};

impl RunningTotal {
    /// Begins with the initial values of the bins.
    pub(crate) fn new(
        alloc: Global,
        stage: usize,
        op: ReductionOp,
        span: &Span,
    ) -> Result<RunningTotal, AllocError>
        ensures stage { IfOk result (λ begun. begun.stage ≡ stage) }
        ensures op { IfOk result (λ begun. begun.op ≡ op) }
        ensures span { IfOk result (λ begun. begun.span ≡ span.now) }
        ensures bins { IfOk result (λ begun. begun.bins.items ≡ starts_by op span.now) }
    {
        Ok(RunningTotal {
            stage,
            op,
            span: *span,
            bins: create_start_bins(alloc, op, span)?,
        })
    }

    /// The state of an accumulator before its first partial: each bin has its initial value. None if the stage is not an
    /// accumulator.
    ///
    /// # Errors
    ///
    /// Fails only where memory is refused.
    pub fn from_job(
        alloc: Global,
        job: &Job,
        stage: usize,
    ) -> Result<Option<RunningTotal>, AllocError>
        ensures some { IfOk result
            (λ found. IfSome found (HasTaken (pipeline_in job.now) stage [])) }
        ensures none { IfOk result
            (λ found. IfNone found (is_accumulator_at (pipeline_in job.now) stage ≡ false)) }
    {
        match (job.op(stage), job.bins(stage)) {
            (Some(op), Some(span)) => Ok(Some(RunningTotal::new(alloc, stage, op, &span)?)),
            _ => Ok(None),
        }
    }

    /// Joins a partial to those that came in before. Allocates no memory.
    pub fn join_partial(&mut self, partial: &[i64])
        requires { length partial.now ≡ len_of self.old.span }
        ensures stage { self.new.stage ≡ self.old.stage }
        ensures op { self.new.op ≡ self.old.op }
        ensures span { self.new.span ≡ self.old.span }
        ensures bins { self.new.bins.items
            ≡ joined_bins self.old.op self.old.bins.items partial.now }
        ensures taken { (job : Pipeline) (g : ℕ) (partials : List (List ℤ))
            → HasTaken job g partials self.old
            → HasTaken job g (partials ++ partial.now ∷ []) self.new }
    {
        join_into(self.op, &mut self.bins, partial);
    }

    /// The totals of all partials that came in.
    pub fn into_total(self) -> Total
        ensures total { gathered result
            ≡ record { stage = self.stage; lo = self.span.lo; bins = self.bins.items } }
        ensures taken { (job : Pipeline) (g : ℕ) (partials : List (List ℤ))
            → HasTaken job g partials self → gathered_from job g partials ≡ gathered result ∷ [] }
    {
        Total {
            stage: self.stage,
            lo: self.span.lo(),
            bins: self.bins,
        }
    }
}
