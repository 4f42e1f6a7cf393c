#![tactic(auto)]
//! Kernels of parts.

ghost use Rattle.std.specs.Prelude.{◌≡◌, IsTrue};
ghost use Rattle.job.specs.WellFormed.{IsKernel, IsKernelSide};

use job::Kernel;

/// Whether a number is a side of a kernel.
pub(crate) fn is_side_of_part_kernel(side: usize) -> bool
    ensures { IsTrue result → IsKernelSide side }
{
    side % 2 == 1 && side <= 15
}

/// Whether the rows of a kernel have one length, and it has a middle.
pub(crate) fn is_part_kernel(kernel: &Kernel) -> bool
    ensures { IsTrue result → IsKernel kernel.now }
{
    let rows = kernel.as_slice();
    let Some(first) = rows.first() else {
        return false;
    };
    let width = first.as_slice().len();
    if !is_side_of_part_kernel(rows.len()) || !is_side_of_part_kernel(width) {
        return false;
    }
    for row in rows {
        if row.as_slice().len() != width {
            return false;
        }
    }
    true
}
