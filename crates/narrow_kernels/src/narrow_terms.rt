#![tactic(auto)]
//! Sums along a row whose terms are computed place by place, wrapped at 16 bits: they are exact once the whole sum fits.

ghost use Rattle.std.specs.Prelude.{◌≡◌, ◌≤◌, ◌+ℤ◌, ◌-ℤ◌, ◌*ℤ◌, ℕ, ℤ, pos, All, length};
ghost use Rattle.std.specs.Int.{w16, int_wrap};
ghost use Rattle.narrow_kernels.specs.NarrowTerms.{narrow_term_sum};
ghost use Rattle.row_loops.specs.Rows.{EachPlace, at};

use crate::narrow_maps::NarrowNumberMap;
use crate::narrow_trees::{
    NarrowMapped, NarrowNumber, NarrowTree, NarrowWritten, write_narrow_tree,
};

/// `a + b`, wrapped at 16 bits.
#[inline]
#[tactic(auto, using(std::proofs::lemmas::Int::wraps))]
pub(crate) fn add_wrapping_narrow_numbers(a: i16, b: i16) -> i16
    ensures { result ≡ int_wrap w16 (a +ℤ b) }
{
    a.wrapping_add(b)
}

/// `a - b`, wrapped at 16 bits.
#[inline]
#[tactic(auto, using(std::proofs::lemmas::Int::wraps))]
pub(crate) fn subtract_wrapping_narrow_numbers(a: i16, b: i16) -> i16
    ensures { result ≡ int_wrap w16 (a -ℤ b) }
{
    a.wrapping_sub(b)
}

/// `a * b`, wrapped at 16 bits.
#[inline]
#[tactic(auto, using(std::proofs::lemmas::Int::wraps))]
pub(crate) fn multiply_wrapping_narrow_numbers(a: i16, b: i16) -> i16
    ensures { result ≡ int_wrap w16 (a *ℤ b) }
{
    a.wrapping_mul(b)
}

/// A term of a sum: a whole number at each place of a row. It may be made of the number that is there before, its own.
pub trait NarrowTerm: Copy {
    /// Whether it is defined at a place.
    ghost has: { Self → ℕ → Type 0 };
    /// And the number there, exactly.
    ghost exact: { Self → ℤ → ℕ → ℤ };

    /// Computes it, wrapped at 16 bits.
    fn compute_narrow_term_at_place(&self, own: i16, k: usize) -> i16
        requires { has self.now k }
        ensures { result ≡ int_wrap w16 (exact self.now own k) };
}

impl NarrowTerm for NarrowNumber {
    ghost has = { λ _ _. Unit {0} };

    ghost exact = { λ s _ _. s.0 };

    #[inline]
    fn compute_narrow_term_at_place(&self, _own: i16, _k: usize) -> i16 {
        self.0
    }
}

impl NarrowTerm for NarrowWritten {
    ghost has = { λ _ _. Unit {0} };

    ghost exact = { λ _ own _. own };

    #[inline]
    fn compute_narrow_term_at_place(&self, own: i16, _k: usize) -> i16 {
        own
    }
}

/// 0.
#[derive(Clone, Copy)]
pub(crate) struct NarrowNothing;

impl NarrowTerm for NarrowNothing {
    ghost has = { λ _ _. Unit {0} };

    ghost exact = { λ _ _ _. pos 0 };

    #[inline]
    fn compute_narrow_term_at_place(&self, _own: i16, _k: usize) -> i16 {
        0
    }
}

/// The sum of two terms.
#[derive(Clone, Copy)]
pub(crate) struct NarrowTermPair<S: NarrowTerm, T: NarrowTerm>(pub(crate) S, pub(crate) T);

impl<S: NarrowTerm, T: NarrowTerm> NarrowTerm for NarrowTermPair<S, T> {
    ghost has = { λ p k. S.has p.0 k × T.has p.1 k };

    ghost exact = { λ p own k. S.exact p.0 own k +ℤ T.exact p.1 own k };

    #[inline]
    fn compute_narrow_term_at_place(&self, own: i16, k: usize) -> i16 {
        add_wrapping_narrow_numbers(
            self.0.compute_narrow_term_at_place(own, k),
            self.1.compute_narrow_term_at_place(own, k),
        )
    }
}

/// A term, wrapped at 16 bits.
#[derive(Clone, Copy)]
struct NarrowWrappedTerm<T: NarrowTerm>(T);

impl<T: NarrowTerm> NarrowTree for NarrowWrappedTerm<T> {
    ghost has = { λ s _ k. T.has s.0 k };

    ghost value = { λ s own k. int_wrap w16 (T.exact s.0 own k) };

    #[inline]
    fn compute_narrow_tree_at_place(&self, own: i16, k: usize) -> i16 {
        self.0.compute_narrow_term_at_place(own, k)
    }
}

/// Writes what an operation makes of a term at each place, once it is wrapped at 16 bits.
pub(crate) fn map_narrow_term<T: NarrowTerm, C: NarrowNumberMap>(out: &mut [i16], term: T, make: C)
    requires has { EachPlace (length out.old) (T.has term) }
    requires fits { (z : ℤ) → C.fits make z }
    ensures { EachPlace (length out.old)
        (λ k. at out.new k ≡ C.value make (int_wrap w16 (T.exact term (at out.old k) k))) }
{
    write_narrow_tree(out, NarrowMapped(make, NarrowWrappedTerm(term)));
}

/// How each item of a list is a term of a sum.
pub trait NarrowTermForm<I: Copy>: Copy {
    /// Whether it is defined at a place.
    ghost has: { Self → I → ℕ → Type 0 };
    /// And the number there, exactly.
    ghost exact: { Self → I → ℕ → ℤ };

    /// Computes it, wrapped at 16 bits.
    fn compute_narrow_term_of_item(&self, item: &I, k: usize) -> i16
        requires { has self.now item.now k }
        ensures { result ≡ int_wrap w16 (exact self.now item.now k) };
}

/// The term that an item is.
#[derive(Clone, Copy)]
pub(crate) struct NarrowItem<I: Copy, F: NarrowTermForm<I>>(pub(crate) F, pub(crate) I);

impl<I: Copy, F: NarrowTermForm<I>> NarrowTerm for NarrowItem<I, F> {
    ghost has = { λ s k. F.has s.0 s.1 k };

    ghost exact = { λ s _ k. F.exact s.0 s.1 k };

    #[inline]
    fn compute_narrow_term_at_place(&self, _own: i16, k: usize) -> i16 {
        self.0.compute_narrow_term_of_item(&self.1, k)
    }
}

/// Adds the terms of up to four items to another one, and writes what an operation makes of the sums, wrapped at 16 bits, in one pass.
pub(crate) fn map_few_narrow_terms<
    I: Copy,
    F: NarrowTermForm<I>,
    S: NarrowTerm,
    C: NarrowNumberMap,
>(out: &mut [i16], start: S, form: F, items: &[I], make: C)
    requires few { length items.now ≤ 4 }
    requires start { EachPlace (length out.old) (S.has start) }
    requires items { All (λ item. EachPlace (length out.old) (F.has form item)) items.now }
    requires fits { (z : ℤ) → C.fits make z }
    ensures { EachPlace (length out.old) (λ k. at out.new k ≡ C.value make (int_wrap w16
        (S.exact start (at out.old k) k
        +ℤ narrow_term_sum (λ item. F.exact form item k) items.now))) }
{
    match items {
        [] => map_narrow_term(out, start, make),
        [a] => map_narrow_term(out, NarrowTermPair(start, NarrowItem(form, *a)), make),
        [a, b] => {
            let all = NarrowTermPair(NarrowItem(form, *a), NarrowItem(form, *b));
            map_narrow_term(out, NarrowTermPair(start, all), make);
        }
        [a, b, c] => {
            let back = NarrowTermPair(NarrowItem(form, *b), NarrowItem(form, *c));
            let all = NarrowTermPair(NarrowItem(form, *a), back);
            map_narrow_term(out, NarrowTermPair(start, all), make);
        }
        [a, b, c, d, ..] => {
            let back = NarrowTermPair(NarrowItem(form, *c), NarrowItem(form, *d));
            let rest = NarrowTermPair(NarrowItem(form, *b), back);
            let all = NarrowTermPair(NarrowItem(form, *a), rest);
            map_narrow_term(out, NarrowTermPair(start, all), make);
        }
    }
}

/// The same of up to nine items.
pub(crate) fn map_narrow_terms<I: Copy, F: NarrowTermForm<I>, S: NarrowTerm, C: NarrowNumberMap>(
    out: &mut [i16],
    start: S,
    form: F,
    items: &[I],
    make: C,
)
    requires few { length items.now ≤ 9 }
    requires start { EachPlace (length out.old) (S.has start) }
    requires items { All (λ item. EachPlace (length out.old) (F.has form item)) items.now }
    requires fits { (z : ℤ) → C.fits make z }
    ensures { EachPlace (length out.old) (λ k. at out.new k ≡ C.value make (int_wrap w16
        (S.exact start (at out.old k) k
        +ℤ narrow_term_sum (λ item. F.exact form item k) items.now))) }
{
    match items {
        [a, b, c, d, e, more @ ..] => {
            let back = NarrowTermPair(NarrowItem(form, *d), NarrowItem(form, *e));
            let rest = NarrowTermPair(
                NarrowItem(form, *b),
                NarrowTermPair(NarrowItem(form, *c), back),
            );
            let all = NarrowTermPair(NarrowItem(form, *a), rest);
            map_few_narrow_terms(out, NarrowTermPair(start, all), form, more, make);
        }
        _ => map_few_narrow_terms(out, start, form, items, make),
    }
}
