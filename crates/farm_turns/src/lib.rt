//! What a worker of a farm does in a turn, over any place that takes its calls.
//!
//! Words: worker place, worker shift, period counter.
#![tactic(auto)]

mod counts;
mod period;
mod place;
mod rules;
mod shift;
mod standing;

pub use period::ParcelPeriodCounter;
pub use place::WorkerPlace;
pub use rules::TurnRules;
pub use shift::WorkerShift;
pub use standing::KeyReadiness;
