//! The tiles of a job's functions, made rank by rank, by several threads where the work is worth it.
//!
//! Words: run, stage run, ranked run, oversized tile, stored tiles, run work, tile rows per thread, local value, missing
//! tile.
#![tactic(auto)]

mod fault;
pub mod laws;
mod pieces;
mod ranks;
mod room;
mod stage_run;
mod stored;
mod work_of_points;

pub use fault::RunFault;
pub use one_tile::{
    EvalFault, TileInputs, TileJob, TileRow, TileScratch, TileScratchView,
    find_first_key_of_unsupplied_tile, run_tile,
};
pub use pieces::{WORK_OF_TILE, estimate_least_tile_rows_per_thread};
pub use ranks::run_all;
pub use room::{TiledStages, find_key_of_first_oversized_tile};
pub use stored::StoredTiles;
pub use tile_sources::{TileSource, borrow_supplied_row_up_to_tile_end};
pub use work_of_points::count_point_run_work;
