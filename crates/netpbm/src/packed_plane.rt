//! A plane that is made piece by piece.
ghost use Rattle.std.specs.Prelude.{◌≡◌, ◌≤◌, ◌++◌, ◌↔◌, [], All, IfOk, OnOk, IsTrue, length};
ghost use Rattle.netpbm.specs.Image.{IsPlane};
ghost use Rattle.netpbm.specs.MadePlane.{made};
ghost use Rattle.plane_samples.specs.Samples.{IsSamples};

use crate::packed_samples::{
    PackedSamples, append_packed_samples, count_packed_samples, has_bounded_packed_samples,
    new_packed_samples, view_packed_samples,
};
use plane_samples::PlaneSamples;
use std::alloc::{AllocError, Global};
use std::marker::Model;

/// A plane that is made piece by piece: of bytes where no sample may be above 255, else of numbers of 16 bits.
/// Contracts see its greatest sample and the list of its samples.
#[derive(Debug, Drop)]
pub struct PackedPlane {
    max: u16,
    samples: PackedSamples,
}

impl Model for PackedPlane {
    ghost use Rattle.std.specs.Prelude.{◌≤◌, All};
    ghost use Rattle.netpbm.specs.MadePlane.{MadePlane, made};
    ghost use Rattle.netpbm.specs.Widths.{list_of, Holds};

    ghost Value = { MadePlane };

    ghost view = { λ p. made p.max (list_of p.samples) };

    ghost invariant = { λ p. All (λ sample. sample ≤ p.max) (list_of p.samples)
        × Holds p.max p.samples };
}

impl PackedPlane {
    /// No samples yet, with capacity for `count`; none will be above `max`.
    ///
    /// # Errors
    ///
    /// Fails only where memory is refused.
    pub fn with_capacity(alloc: Global, max: u16, count: usize) -> Result<PackedPlane, AllocError>
        ensures { IfOk result (λ plane. plane ≡ made max []) }
    {
        Ok(PackedPlane {
            max,
            samples: new_packed_samples(alloc, max, count)?,
        })
    }

    /// Adds samples after those that there are.
    ///
    /// # Errors
    ///
    /// Fails only where memory is refused. Some of the first samples may have been added then.
    pub fn extend_from_slice(&mut self, samples: &[u16]) -> Result<(), AllocError>
        requires { All (λ sample. sample ≤ self.old.max) samples.now }
        ensures max { self.new.max ≡ self.old.max }
        ensures samples { OnOk result (self.new.samples ≡ self.old.samples ++ samples.now) }
    {
        append_packed_samples(&mut self.samples, self.max, samples)
    }

    // The samples as they lie in memory.
    pub(crate) fn samples(&self) -> PlaneSamples<'_>
        ensures { IsSamples result self.now.samples }
    {
        view_packed_samples(&self.samples)
    }

    // How many samples there are.
    pub(crate) fn len(&self) -> usize
        ensures { result ≡ length self.now.samples }
    {
        count_packed_samples(&self.samples)
    }

    // Whether no sample is above `max`. If none can be, none is looked at.
    pub(crate) fn has_no_sample_above(&self, max: u16) -> bool
        ensures { IsTrue result ↔ All (λ sample. sample ≤ max) self.now.samples }
    {
        if self.max <= max {
            return true;
        }
        has_bounded_packed_samples(&self.samples, max)
    }
}

// Whether a plane has `area` samples, none above `max`.
pub(crate) fn is_valid_packed_plane(area: usize, max: u16, plane: &PackedPlane) -> bool
    ensures { IsTrue result ↔ IsPlane area max plane.now.samples }
{
    plane.len() == area && plane.has_no_sample_above(max)
}
