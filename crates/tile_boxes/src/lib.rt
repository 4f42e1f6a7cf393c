//! Boxes: which area of each inlined function a tile needs, and what tiles cost.
//!
//! Words: box, demand, inlined, tally, survey, tile area, tile column, stored reads, function stage, widen span, stages by
//! rank, greatest rank.
#![tactic(auto)]

mod costs;
mod demands;
mod inlining;
mod order;
mod target;

pub use costs::{CostSurvey, MOST_SCRATCH, list_tile_areas, survey_stage_costs};
pub use demands::intersect_boxes;
pub use inlining::{InlinedStages, find_output_requested_inlined, is_function_stage};
pub use order::{find_greatest_rank, order_stages_by_rank};
pub use target::{BoxWalk, new_empty_boxes};
