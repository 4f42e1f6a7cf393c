//! A `Vec`'s numbers, borrowed in three parts.

ghost use Rattle.std.specs.Prelude.{◌≡◌, ◌≤◌, ◌-◌, vec_len, take, drop};
ghost use Rattle.std.specs.Borrow.{sem};
ghost use Rattle.scratch.specs.VecParts.{LendsVec, LendsVecPart};

use crate::parts::split_scratch_slice_at_range;

/// All the numbers of a `Vec`.
fn view_scratch_vec_as_mut_slice(all: &mut Vec<i32>) -> &mut [i32]
    ensures value { result.now ≡ all.old.items }
    ensures* writes_back { sem 𝓛 (LendsVec all.entry result) }
{
    all.as_mut_slice()
}

/// The numbers of a `Vec` before a range, in it and after it.
pub fn split_scratch_vec_at_range(
    all: &mut Vec<i32>,
    start: usize,
    end: usize,
) -> (&[i32], &mut [i32], &[i32])
    requires ordered { start ≤ end }
    requires inside { end ≤ vec_len all.old }
    ensures before { result.0.now ≡ take start all.old.items }
    ensures within { result.1.now ≡ take (end - start) (drop start all.old.items) }
    ensures behind { result.2.now ≡ drop end all.old.items }
    ensures* writes_back { sem 𝓛 (LendsVecPart all.entry start end result.1) }
{
    split_scratch_slice_at_range(view_scratch_vec_as_mut_slice(all), start, end)
}
