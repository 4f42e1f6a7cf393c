//! The parts of a job, before it is known that they make one.

use crate::outputs::{Output, Parameter};
use crate::stage::Stage;
use domains::TileSides;
use netpbm::Picture;
use tables::Table;

/// Stages over a picture. A stage's number is its place.
#[derive(Debug, Drop)]
pub struct BoundPipeline {
    /// In the order in which the text declares their names.
    pub stages: Vec<Stage>,
    pub output: Option<Output>,
    /// With their values, in the order of the text.
    pub params: Vec<Parameter>,
    /// With their entries, in the order of the text.
    pub tables: Vec<Table>,
    pub picture: Picture,
    /// The sides of the tiles.
    pub sides: TileSides,
}
