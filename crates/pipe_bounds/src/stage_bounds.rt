#![tactic(auto)]
//! The bounds of a stage.

ghost use Rattle.std.specs.Prelude.{◌≡◌};

use domains::{Area, Span};
use std::marker::Model;

/// The bounds of a stage. Contracts see its three parts.
#[derive(Debug, Drop)]
pub struct StageBounds {
    domain: Area,
    bins: Option<Span>,
    boxes: Vec<Option<Area>>,
}

impl Model for StageBounds {
    ghost use Rattle.pipe_bounds.specs.StageBounds.{StageBounds as Seen};

    ghost Value = { Seen };

    ghost view = { λ b. record { domain = b.domain; bins = b.bins; boxes = b.boxes.items } };
}

impl StageBounds {
    pub(crate) fn new(domain: Area, bins: Option<Span>, boxes: Vec<Option<Area>>) -> Self
        ensures { result ≡ record { domain = domain; bins = bins; boxes = boxes.items } }
    {
        StageBounds {
            domain,
            bins,
            boxes,
        }
    }

    /// The domain of a plane or a function, and the reduction domain of an accumulator.
    pub fn domain(&self) -> &Area
        ensures { result.now ≡ self.now.domain }
    {
        &self.domain
    }

    /// The bins of an accumulator. No other stage has any.
    pub fn bins(&self) -> Option<Span>
        ensures { result ≡ self.now.bins }
    {
        self.bins
    }

    /// The box of each case of a function, in the order of the text; none for a case whose box has no point. `else` has the whole
    /// domain, and is not included.
    pub fn boxes(&self) -> &[Option<Area>]
        ensures { result.now ≡ self.now.boxes }
    {
        &self.boxes
    }
}
