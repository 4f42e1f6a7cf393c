#![tactic(auto)]
//! The keys of tiles that are needed.

ghost use Rattle.std.specs.Prelude.{◌≡◌, ◌<◌, map, All, IfOk};
ghost use Rattle.job.specs.Kept.{pipeline_in, program_id_in};
ghost use Rattle.overlap_tiles.specs.Needs.{key_of};
ghost use Rattle.overlap_tiles.specs.Views.{need_view};

use crate::needs::NeededTile;
use identity::Key;
use job::Job;
use std::alloc::{AllocError, Global};

/// The keys of these tiles. The job's input is hashed at most once.
pub(crate) fn list_keys_of_tile_needs(
    alloc: Global,
    job: &Job,
    needs: &[NeededTile],
) -> Result<Vec<Key>, AllocError>
    requires { All (λ n. n.stage < 65536) needs.now }
    ensures { IfOk result (λ keys. keys.items
        ≡ map (key_of (program_id_in job.now) (pipeline_in job.now))
        (map need_view needs.now)) }
{
    let program = job.program_id();
    let input = job.input_id();
    let mut keys = Vec::new(alloc);
    for need in needs {
        keys.push(Key {
            program,
            input,
            stage: need.stage as u16,
            row: need.row,
            col: need.col,
        })?;
    }
    Ok(keys)
}
