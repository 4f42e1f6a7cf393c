//! One tile of a job, computed from planes and from supplied tiles.
//!
//! Words: tile job, tile scratch, tile inputs, tile step, tile operand, run tile, unsupplied, eval fault.
#![tactic(auto)]

mod memory;
mod operands;
mod prepare;
mod run;
mod scratch_view;
mod steps;
mod tile_fault;
mod tile_inputs;
mod tile_job;
mod tile_rows;

pub use memory::TileScratch;
pub use run::{find_first_key_of_unsupplied_tile, run_tile};
pub use scratch_view::TileScratchView;
pub use tile_fault::EvalFault;
pub use tile_inputs::TileInputs;
pub use tile_job::TileJob;
pub use tile_rows::{StageTiles, TileRow};
