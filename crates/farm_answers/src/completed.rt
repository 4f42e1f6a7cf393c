//! From held facts to the answer of a job.

ghost use Rattle.std.specs.Option.{ForSome};
ghost use Rattle.std.specs.Prelude.{◌≡◌, IfOk, length};
ghost use Rattle.farm_answers.specs.Answering.{IsAnswerOf, IsPlanned, missing_work};
ghost use Rattle.held_facts.specs.HeldFacts.{HoldsTrueFacts};
ghost use Rattle.netpbm.specs.Image.{IsImage};

use crate::plan::FarmAnswerPlan;
use accumulators::Answer;
use catalog::Catalog;
use grouping::Schedule;
use held_facts::HeldFacts;
use std::alloc::{AllocError, Global};

/// The answer of a job, and how many tiles were made for it.
#[derive(Debug, Drop)]
pub struct CompletedAnswer {
    pub answer: Answer,
    pub made: u32,
}

/// The answer of a job if all that is held is true. Tiles of stored functions and accumulators of which nothing is held are made,
/// in dependence order. More than 4,294,967,295 of them are reported as if memory ran out.
///
/// # Errors
///
/// Fails only where memory is refused.
pub fn complete_farm_answer(
    alloc: Global,
    catalog: &Catalog,
    job: usize,
    schedule: &Schedule,
    held: HeldFacts,
) -> Result<CompletedAnswer, AllocError>
    requires planned { IsPlanned catalog.now job schedule.now }
    requires is_true { HoldsTrueFacts catalog.now held }
    ensures answer { IfOk result (λ done. IsAnswerOf catalog.now job done.answer) }
    ensures image { IfOk result (λ done. ForSome done.answer.picture IsImage) }
    ensures made { IfOk result (λ done. done.made
        ≡ length (missing_work catalog.now job schedule.now.inlining held)) }
{
    let Some(asked) = catalog.job(job) else {
        unreachable!();
    };
    let plan = FarmAnswerPlan {
        catalog,
        job: asked,
        schedule,
    };
    let keys = plan.list_missing_work_keys(alloc, &held)?;
    let Ok(made) = u32::try_from(keys.len()) else {
        return Err(AllocError);
    };
    let full = plan.make_missing_facts(held, &keys)?;
    let answer = plan.compose_answer(&full)?;
    Ok(CompletedAnswer { answer, made })
}
