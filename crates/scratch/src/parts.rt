//! A buffer's numbers, borrowed in three parts.

ghost use Rattle.std.specs.Prelude.{◌≡◌, ◌≤◌, ◌-◌, length, take, drop};
ghost use Rattle.std.specs.Borrow.{sem};
ghost use Rattle.scratch.specs.Parts.{LendsPart};

use std::slice;

/// The numbers before a range, in it and after it.
pub fn split_scratch_slice_at_range(
    all: &mut [i32],
    start: usize,
    end: usize,
) -> (&[i32], &mut [i32], &[i32])
    requires ordered { start ≤ end }
    requires inside { end ≤ length all.old }
    ensures before { result.0.now ≡ take start all.old }
    ensures within { result.1.now ≡ take (end - start) (drop start all.old) }
    ensures behind { result.2.now ≡ drop end all.old }
    ensures* writes_back { sem 𝓛 (LendsPart all.entry start end result.1) }
{
    let n = all.len();
    let p = all.as_mut_ptr();
    unsafe {
        (
            slice::from_raw_parts(p, start),
            slice::from_raw_parts_mut(p.add(start), end - start),
            slice::from_raw_parts(p.add(end), n - end),
        )
    }
}
