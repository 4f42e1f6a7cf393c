#![tactic(auto)]
//! Numbers of 16 bits at the places of a row: trees of operators over lines, numbers and what is written, and the one loop that writes them.

ghost use Rattle.std.specs.Prelude.{◌≡◌, ◌<◌, ℕ, ℤ, length};
ghost use Rattle.narrow_kernels.specs.NarrowSources.{HasNarrowNumber, narrow_source_number};
ghost use Rattle.row_loops.specs.Rows.{EachPlace, at};

use crate::narrow_maps::NarrowNumberMap;
use crate::narrow_operand::NarrowOperand;
use crate::narrow_pairs::NarrowPairMap;

/// A number at each place of a row that is written. It may be made of the number that is there before, its own.
pub trait NarrowTree: Copy {
    /// Whether it is defined at a place: its lines reach so far, and what its operators make fits in 16 bits.
    ghost has: { Self → ℤ → ℕ → Type 0 };
    /// And the number there.
    ghost value: { Self → ℤ → ℕ → ℤ };

    /// Computes it.
    fn compute_narrow_tree_at_place(&self, own: i16, k: usize) -> i16
        requires { has self.now own k }
        ensures { result ≡ value self.now own k };
}

/// The numbers of a line.
#[derive(Clone, Copy)]
pub(crate) struct NarrowLine<'a>(pub(crate) &'a [i16]);

impl<'a> NarrowTree for NarrowLine<'a> {
    ghost has = { λ s _ k. k < length s.0.now };

    ghost value = { λ s _ k. at s.0.now k };

    #[inline]
    fn compute_narrow_tree_at_place(&self, _own: i16, k: usize) -> i16 {
        self.0[k]
    }
}

/// One number.
#[derive(Clone, Copy)]
pub(crate) struct NarrowNumber(pub(crate) i16);

impl NarrowTree for NarrowNumber {
    ghost has = { λ _ _ _. Unit {0} };

    ghost value = { λ s _ _. s.0 };

    #[inline]
    fn compute_narrow_tree_at_place(&self, _own: i16, _k: usize) -> i16 {
        self.0
    }
}

/// The numbers that are in the row.
#[derive(Clone, Copy)]
pub(crate) struct NarrowWritten;

impl NarrowTree for NarrowWritten {
    ghost has = { λ _ _ _. Unit {0} };

    ghost value = { λ _ own _. own };

    #[inline]
    fn compute_narrow_tree_at_place(&self, own: i16, _k: usize) -> i16 {
        own
    }
}

// Those of any operand. (Its kind is found again at each place.)
impl<'a> NarrowTree for NarrowOperand<'a> {
    ghost has = { λ s _ k. HasNarrowNumber s k };

    ghost value = { λ s own k. narrow_source_number s own k };

    #[inline]
    fn compute_narrow_tree_at_place(&self, own: i16, k: usize) -> i16 {
        match self {
            NarrowOperand::Line(line) => NarrowLine(line).compute_narrow_tree_at_place(own, k),
            NarrowOperand::Number(number) => *number,
            NarrowOperand::Written => own,
        }
    }
}

/// What an operation makes of the numbers of a tree.
#[derive(Clone, Copy)]
pub(crate) struct NarrowMapped<C: NarrowNumberMap, T: NarrowTree>(pub(crate) C, pub(crate) T);

impl<C: NarrowNumberMap, T: NarrowTree> NarrowTree for NarrowMapped<C, T> {
    ghost has = { λ s own k. T.has s.1 own k × C.fits s.0 (T.value s.1 own k) };

    ghost value = { λ s own k. C.value s.0 (T.value s.1 own k) };

    #[inline]
    fn compute_narrow_tree_at_place(&self, own: i16, k: usize) -> i16 {
        self.0
            .apply_to_narrow_number(self.1.compute_narrow_tree_at_place(own, k))
    }
}

/// What an operation makes of the numbers of two trees.
#[derive(Clone, Copy)]
pub(crate) struct NarrowJoined<P: NarrowPairMap, A: NarrowTree, B: NarrowTree>(
    pub(crate) P,
    pub(crate) A,
    pub(crate) B,
);

impl<P: NarrowPairMap, A: NarrowTree, B: NarrowTree> NarrowTree for NarrowJoined<P, A, B> {
    ghost has = { λ s own k. A.has s.1 own k × B.has s.2 own k
        × P.fits s.0 own k (A.value s.1 own k) (B.value s.2 own k) };

    ghost value = { λ s own k. P.value s.0 own k (A.value s.1 own k) (B.value s.2 own k) };

    #[inline]
    fn compute_narrow_tree_at_place(&self, own: i16, k: usize) -> i16 {
        let left = self.1.compute_narrow_tree_at_place(own, k);
        let right = self.2.compute_narrow_tree_at_place(own, k);
        self.0.apply_to_narrow_pair(left, right, own, k)
    }
}

/// Writes the numbers of a tree.
pub(crate) fn write_narrow_tree<T: NarrowTree>(out: &mut [i16], tree: T)
    requires { EachPlace (length out.old) (λ k. T.has tree (at out.old k) k) }
    ensures { EachPlace (length out.old) (λ k. at out.new k ≡ T.value tree (at out.old k) k) }
{
    for k in 0..out.len() {
        out[k] = tree.compute_narrow_tree_at_place(out[k], k);
    }
}

/// Each place has the number.
pub fn fill_narrow_row(out: &mut [i16], number: i16)
    ensures { EachPlace (length out.old) (λ k. at out.new k ≡ number) }
{
    write_narrow_tree(out, NarrowNumber(number));
}
