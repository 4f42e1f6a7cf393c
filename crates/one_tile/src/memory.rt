#![tactic(auto)]
//! Buffers in which tiles are computed.

ghost use Rattle.std.specs.Prelude.{◌≤◌, length, IfOk};

use std::alloc::{AllocError, Global};
use std::mem;
use tile_sources::ThreePlaneBuffers;

/// Buffers in which tiles are computed, one after another: for boxes of inlined functions, samples of planes and operands. Their
/// content is unspecified between calls.
#[derive(Drop)]
pub struct TileScratch {
    pub(crate) boxes: scratch::Scratch,
    pub(crate) planes: ThreePlaneBuffers,
    pub(crate) operands: Vec<i32>,
    pub(crate) operands_of_steps: Vec<i32>,
}

/// Takes the vector out, grown to the requested length if it is shorter. Its content is unspecified.
///
/// # Errors
///
/// Fails only where memory is refused.
pub(crate) fn take_and_grow_tile_operand_vector(
    alloc: Global,
    kept: &mut Vec<i32>,
    size: usize,
) -> Result<Vec<i32>, AllocError>
    ensures { IfOk result (λ taken. size ≤ length taken.items) }
{
    let mut taken = mem::replace(kept, Vec::new(alloc));
    if taken.len() < size {
        taken.resize(size, 0)?;
    }
    Ok(taken)
}

impl TileScratch {
    /// No memory yet.
    pub fn new(alloc: Global) -> TileScratch {
        TileScratch {
            boxes: scratch::Scratch::new(alloc),
            planes: ThreePlaneBuffers::new(alloc),
            operands: Vec::new(alloc),
            operands_of_steps: Vec::new(alloc),
        }
    }
}
