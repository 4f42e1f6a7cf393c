//! Layouts and plans of tiles: which stored tiles a tile reads, which boxes are computed for it in which order, and where
//! each lies in scratch memory.
//!
//! Words: tile plan, plan fault, layout, tile need, step place, last reader, scratch range, work key, work stage, scratch
//! limit, first gap, stage area, target tile.
#![tactic(auto)]

mod fault;
mod keys;
pub mod laws;
mod layout;
mod lives;
mod needs;
mod places;
mod plan;
mod ranges;
mod room;
mod steps;
mod work;

pub use fault::PlanFault;
pub use layout::TileLayout;
pub use needs::NeededTile;
pub use plan::TilePlan;
pub use room::{find_key_over_scratch_limit, is_tile_over_scratch_limit};
pub use steps::TileStep;
pub use work::{list_work_keys, list_work_keys_of_results};
