//! Keys of tiles.

use crate::ids::{InputId, ProgramId};

/// The name of a tile: its program, the program's input, the stage, and the row and the column in the stage's grid. Keys are in
/// the order of their fields.
#[derive(Clone, Copy, Debug, PartialEq, Eq, PartialOrd, Ord, Hash)]
pub struct Key {
    pub program: ProgramId,
    pub input: InputId,
    pub stage: u16,
    pub row: u32,
    pub col: u32,
}
