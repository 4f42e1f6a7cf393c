#![tactic(auto)]
//! Cases and functions whose instructions are chosen.

ghost use Rattle.std.specs.Prelude.{◌≡◌};

use crate::narrow_program::NarrowProgram;
use domains::Area;
use operators::PointTest;

/// A program where all tests hold, and a box outside of which none of its points lies.
#[derive(Drop)]
pub struct NarrowCase {
    pub(crate) area: Option<Area>,
    pub(crate) tests: Vec<PointTest>,
    pub(crate) program: NarrowProgram,
}

/// A function: the first case whose tests hold at a point gives its value there, else `otherwise`, else it is 0.
#[derive(Drop)]
pub struct NarrowFunction {
    pub(crate) cases: Vec<NarrowCase>,
    pub(crate) otherwise: Option<NarrowProgram>,
}
