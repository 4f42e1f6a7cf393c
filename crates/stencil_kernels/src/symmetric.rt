#![tactic(auto)]
//! Rows of five factors that are the same from both ends.

ghost use Rattle.std.specs.Prelude.{◌≡◌, ◌<◌, ◌≤◌, ◌+◌, ◌+ℤ◌, ℤ, take, length, IfSome};
ghost use Rattle.domains.specs.Arithmetic.{wrapped};
ghost use Rattle.row_loops.specs.Rows.{EachPlace, at};
ghost use Rattle.stencil_kernels.specs.Stencil.{tap_sum};

use crate::products::{add_tap_pair_product, add_tap_product};
use domains::arithmetic::wrapping_add;
use std::marker::Model;

/// A row of five factors, of which the first two are those at the other end: two numbers under one factor are added first. Contracts see
/// the list of all five.
#[derive(Debug, Drop)]
pub struct SymmetricFactors {
    outer: i32,
    inner: i32,
    middle: i32,
}

impl Model for SymmetricFactors {
    ghost use Rattle.std.specs.Prelude.{List, [], ◌∷◌, ℤ};

    ghost Value = { List ℤ };

    ghost view = { λ q. q.outer ∷ q.inner ∷ q.middle ∷ q.inner ∷ q.outer ∷ [] };
}

impl SymmetricFactors {
    /// The first five factors, if there are at least five, and they are symmetric.
    pub fn from_first_factors(factors: &[i32]) -> Option<SymmetricFactors>
        ensures is { IfSome result (λ q. q ≡ take 5 factors.now) }
        ensures many { IfSome result (λ q. 5 ≤ length factors.now) }
    {
        match factors {
            [first, second, third, fourth, fifth, ..] => {
                if *first != *fifth || *second != *fourth {
                    return None;
                }
                Some(SymmetricFactors {
                    outer: *fifth,
                    inner: *fourth,
                    middle: *third,
                })
            }
            _ => None,
        }
    }

    /// The factors times the numbers from place `k` on, wrapped at 32 bits.
    #[inline]
    fn sum_symmetric_products(&self, line: &[i32], k: usize) -> i32
        requires { k + 4 < length line.now }
        ensures { result ≡ wrapped (tap_sum self.now line.now k) }
    {
        let outer = add_tap_pair_product(0, self.outer, line, k, k + 4);
        let inner = add_tap_pair_product(outer, self.inner, line, k + 1, k + 3);
        add_tap_product(inner, self.middle, line, k + 2)
    }

    /// Adds at each place the factors times the numbers from there on.
    pub fn add_symmetric_product_sums(self, out: &mut [i32], line: &[i32])
        requires { length out.old + 4 ≤ length line.now }
        ensures { EachPlace (length out.old)
            (λ k. at out.new k ≡ wrapped (at out.old k +ℤ wrapped (tap_sum self line.now k))) }
    {
        for k in 0..out.len() {
            out[k] = wrapping_add(out[k], self.sum_symmetric_products(line, k));
        }
    }

    /// Writes at each place the factors times the numbers from there on.
    pub fn write_symmetric_sums(self, out: &mut [i32], line: &[i32])
        requires { length out.old + 4 ≤ length line.now }
        ensures { EachPlace (length out.old)
            (λ k. at out.new k ≡ wrapped (tap_sum self line.now k)) }
    {
        for k in 0..out.len() {
            out[k] = self.sum_symmetric_products(line, k);
        }
    }
}
