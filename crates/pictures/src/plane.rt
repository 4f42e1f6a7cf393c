#![tactic(auto)]
//! Where samples are added, one after the other.

ghost use Rattle.std.specs.Prelude.{◌≡◌, ◌≤◌, ◌++◌, [], All, IfOk, OnOk};
ghost use Rattle.netpbm.specs.MadePlane.{made};

use netpbm::PackedPlane;
use std::alloc::{AllocError, Global};

/// A plane that samples are added to.
#[derive(Drop)]
pub(crate) struct OutputPlane {
    pub(crate) max: u16,
    plane: PackedPlane,
    ghost same: { plane.max ≡ max },
}

impl OutputPlane {
    /// No samples yet, and capacity for `count`.
    ///
    /// # Errors
    ///
    /// Fails only where memory is refused.
    pub(crate) fn with_capacity(
        alloc: Global,
        max: u16,
        count: usize,
    ) -> Result<OutputPlane, AllocError>
        ensures { IfOk result (λ sheet. sheet.plane ≡ made max []) }
    {
        let plane = PackedPlane::with_capacity(alloc, max, count)?;
        Ok(OutputPlane { max, plane })
    }

    /// Adds samples after those that are there.
    ///
    /// # Errors
    ///
    /// Fails only where memory is refused. Then some of the first samples may have been added.
    pub(crate) fn append_samples(&mut self, more: &[u16]) -> Result<(), AllocError>
        requires { All (λ sample. sample ≤ self.old.plane.max) more.now }
        ensures max { self.new.plane.max ≡ self.old.plane.max }
        ensures samples { OnOk result
            (self.new.plane.samples ≡ self.old.plane.samples ++ more.now) }
    {
        self.plane.extend_from_slice(more)
    }

    /// The finished plane.
    pub(crate) fn into_plane(self) -> PackedPlane
        ensures { result ≡ self.plane }
    {
        self.plane
    }
}
