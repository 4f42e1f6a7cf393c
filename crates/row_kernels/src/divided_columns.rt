#![tactic(auto)]
//! The columns of a dividing index along a row, without a division at each point.

ghost use Rattle.std.specs.Prelude.{◌≡◌, ◌<◌, ◌≤◌, ◌+ℤ◌, ◌*ℤ◌, ◌<ℤ◌, ◌≤ℤ◌, ◌==◌, ◌&&◌, ℕ, pos, negsuc};
ghost use Rattle.domains.specs.Arithmetic.{floor_rem};

use crate::reciprocal::Reciprocal;
use domains::Index;
use domains::arithmetic::floor_rem;

/// The columns that a dividing index takes at adjacent columns, counted from the first of them.
#[derive(Clone, Copy, Debug)]
pub struct DividedColumns {
    left: u32,
    step: u32,
    reciprocal: Reciprocal,
    ghost left_most: { left < 16 },
    ghost left_below: { left < reciprocal.divisor },
    ghost step_most: { step ≤ 16 },
}

// What an index multiplies by.
#[tactic(auto, using(std::proofs::lemmas::Int::ints))]
fn get_gather_multiplier(index: &Index) -> u32
    ensures number { index.now.mul ≡ pos result }
    ensures most { result ≤ 16 }
{
    index.mul() as u32
}

// What it divides by.
#[tactic(auto, using(std::proofs::lemmas::Int::ints))]
fn get_gather_divisor(index: &Index) -> u32
    ensures number { index.now.div ≡ pos result }
    ensures most { result ≤ 16 }
{
    index.div() as u32
}

// The remainder of the division at a column.
#[tactic(auto, using(std::proofs::lemmas::Int::ints))]
fn compute_gather_remainder_at_column(index: &Index, col: i32) -> u32
    requires least { negsuc 32767 ≤ℤ col }
    requires most { col ≤ℤ pos 32768 }
    ensures rest { floor_rem (index.now.mul *ℤ col +ℤ index.now.add) index.now.div ≡ pos result }
    ensures most { result < 16 }
    ensures below { pos result <ℤ index.now.div }
{
    floor_rem(index.mul() * col + index.add(), index.div()) as u32
}

impl DividedColumns {
    ghost use Rattle.domains.specs.Index.{index_at};
    ghost use Rattle.row_kernels.specs.inside.Divided.{compute_column_offset_at_place};

    /// Those of an index from a column on.
    #[tactic(auto, using(std::proofs::lemmas::Int::ints))]
    pub fn from_index(index: &Index, col: i32) -> DividedColumns
        requires divides { pos 1 <ℤ index.now.div }
        requires least { negsuc 32767 ≤ℤ col }
        requires most { col ≤ℤ pos 32768 }
        ensures { (k : ℕ) → index_at index.now (col +ℤ pos k)
            ≡ index_at index.now col +ℤ pos (compute_column_offset_at_place result k) }
    {
        DividedColumns {
            left: compute_gather_remainder_at_column(index, col),
            step: get_gather_multiplier(index),
            reciprocal: Reciprocal::new(get_gather_divisor(index)),
        }
    }

    /// The remainder of the division at the first column.
    pub fn first_remainder(&self) -> usize
        ensures number { result ≡ self.now.left }
        ensures below { result < self.now.reciprocal.divisor }
    {
        self.left as usize
    }

    /// Whether the index only adds, and divides by 2.
    pub fn is_halving(&self) -> bool
        ensures { result ≡ (self.now.step == 1) && (self.now.reciprocal.divisor == 2) }
    {
        self.step == 1 && self.reciprocal.divisor() == 2
    }

    /// How far the column at point number `k` lies after the first.
    #[inline]
    pub fn compute_column_offset_at_place(&self, k: usize) -> usize
        requires { k < 65536 }
        ensures { result ≡ compute_column_offset_at_place self.now k }
    {
        self.reciprocal.quotient(self.left + k as u32 * self.step) as usize
    }
}
