#![tactic(auto)]
//! Scratch memory.

ghost use Rattle.std.specs.Prelude.{◌≡◌, ◌≤◌, length, take, drop, slice_range, OnOk};
ghost use Rattle.std.specs.Borrow.{sem};

use crate::numbers::split_scratch_vec_at_range;
use std::alloc::{AllocError, Global};
use std::ops::Range;

/// Memory in which boxes of inlined functions are computed, each in its range. Its contents have no meaning between calls.
#[derive(Drop)]
pub struct Scratch {
    numbers: Vec<i32>,
}

impl Scratch {
    ghost use Rattle.scratch.specs.Lending.{numbers_of, LendsRange};

    /// No memory yet.
    pub fn new(alloc: Global) -> Scratch {
        Scratch {
            numbers: Vec::new(alloc),
        }
    }

    /// Grows to `size` numbers, if it has fewer.
    ///
    /// # Errors
    ///
    /// Fails only where memory is refused.
    pub fn grow(&mut self, size: usize) -> Result<(), AllocError>
        ensures { OnOk result (size ≤ length (numbers_of self.new)) }
    {
        if self.numbers.len() < size {
            self.numbers.resize(size, 0)?;
        }
        Ok(())
    }

    /// All numbers.
    pub fn as_slice(&self) -> &[i32]
        ensures { result.now ≡ numbers_of self.now }
    {
        &self.numbers
    }

    /// The numbers before a range, in it and after it, borrowed together. Afterwards only the range may differ, and it holds what
    /// was written into it. It allocates no memory.
    pub fn parts(&mut self, range: Range<usize>) -> (&[i32], &mut [i32], &[i32])
        requires ordered { range.start ≤ range.end }
        requires inside { range.end ≤ length (numbers_of self.old) }
        ensures before { result.0.now ≡ take range.start (numbers_of self.old) }
        ensures within { result.1.now ≡ slice_range (numbers_of self.old) range.start range.end }
        ensures behind { result.2.now ≡ drop range.end (numbers_of self.old) }
        ensures* writes_back { sem 𝓛 (LendsRange self.entry range result.1) }
    {
        split_scratch_vec_at_range(&mut self.numbers, range.start, range.end)
    }
}
