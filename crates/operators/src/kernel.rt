#![tactic(auto)]
//! Kernels of stencils.

ghost use Rattle.std.specs.Prelude.{◌≡◌, IfOk};

use sequences::Sequence;
use std::alloc::AllocError;

/// The factors of a stencil: its rows from the top.
pub type Kernel = Sequence<KernelFactors>;

/// One row of a kernel: its factors from the left.
pub type KernelFactors = Sequence<i32>;

/// A copy of the kernel.
pub fn copy_kernel(kernel: &Kernel) -> Result<Kernel, AllocError>
    ensures { IfOk result (λ copy. copy ≡ kernel.now) }
{
    Ok(kernel.clone()?)
}
