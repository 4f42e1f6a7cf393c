#![tactic(auto)]
//! The status of a stage while the greedy rule runs.

ghost use Rattle.std.specs.Prelude.{◌≡◌, Some};
ghost use Rattle.grouping.specs.inside.Trials.{find_kept_cost_of_stored_stage, find_kept_box, find_kept_scratch};

use crate::boxes::GroupBoxes;
use domains::Area;

/// The status of a stage.
#[derive(Drop)]
pub(crate) enum StageStatus {
    /// Stored: how many points its tiles take together, and how many each of them has in scratch memory.
    Stored(u64, Vec<u64>),
    /// Inlined: its boxes in the tiles of its group.
    Inlined(GroupBoxes),
}

impl StageStatus {
    /// What the tiles of a stored stage take together.
    pub(crate) fn cost(&self) -> u64
        ensures { result ≡ find_kept_cost_of_stored_stage (Some self.now) }
    {
        match self {
            StageStatus::Stored(points, _) => *points,
            StageStatus::Inlined(_) => 0,
        }
    }

    /// The box of an inlined function in a tile of its group.
    pub(crate) fn get_tile_box(&self, place: usize) -> Option<Area>
        ensures { result ≡ find_kept_box (Some self.now) place }
    {
        match self {
            StageStatus::Stored(_, _) => None,
            StageStatus::Inlined(boxes) => boxes.get_tile_box(place),
        }
    }

    /// What a tile of a stored stage has in scratch memory.
    pub(crate) fn get_tile_scratch(&self, place: usize) -> u64
        ensures { result ≡ find_kept_scratch (Some self.now) place }
    {
        match self {
            StageStatus::Stored(_, scratch) => scratch.get(place).copied().unwrap_or(0),
            StageStatus::Inlined(_) => 0,
        }
    }
}
