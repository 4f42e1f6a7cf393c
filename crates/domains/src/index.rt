ghost use Rattle.std.specs.Prelude.{◌≡◌, ◌≤ℤ◌, ◌<ℤ◌, ℤ, pos, negsuc, IfSome, IfNone};
ghost use Rattle.domains.specs.Arithmetic.{floor_div};

use crate::arithmetic::floor_div;
use crate::span::Span;
use std::marker::Model;

/// Where a read looks: at `v` it takes the number (mul * v + add) / div, rounded down.
#[derive(Clone, Copy, Debug, PartialEq, Eq)]
pub struct Index {
    mul: i32,
    add: i32,
    div: i32,
}

impl Model for Index {
    ghost use Rattle.domains.specs.Index.{Scale, IsIndex};

    ghost Value = { Scale };

    ghost view = { λ x. record { mul = x.mul; add = x.add; div = x.div } };

    ghost invariant = { λ x. IsIndex (record { mul = x.mul; add = x.add; div = x.div }) };

    ghost inverse = { λ x. record { mul = x.mul; add = x.add; div = x.div } };
}

// The quotient, rounded down. Most indices do not divide, and a division takes as long as many sums.
#[inline]
fn divide_index_product(product: i32, div: i32) -> i32
    requires { pos 0 <ℤ div }
    ensures { result ≡ floor_div product div }
{
    if div == 1 {
        product
    } else {
        floor_div(product, div)
    }
}

impl Index {
    ghost use Rattle.domains.specs.Span.{IsSpan};
    ghost use Rattle.domains.specs.Index.{Scale, IsIndex, IsImage, index_at, image_of};

    /// The index of these numbers; none where `mul` or `div` lies outside 1 to 16, or `add` outside -4096 to 4096.
    pub fn new(mul: i32, add: i32, div: i32) -> Option<Index>
        ensures some { IfSome result (λ x. x ≡ record { mul = mul; add = add; div = div }) }
        ensures within { IfSome result IsIndex }
        ensures none { IfNone result (¬ (IsIndex (record { mul = mul; add = add; div = div }))) }
    {
        if (1..=16).contains(&mul) && (-4096..=4096).contains(&add) && (1..=16).contains(&div) {
            Some(Index { mul, add, div })
        } else {
            None
        }
    }

    /// What `v` is multiplied by.
    pub fn mul(&self) -> i32
        ensures number { result ≡ self.now.mul }
        ensures within { IsIndex self.now }
    {
        self.mul
    }

    /// What is added to the product.
    pub fn add(&self) -> i32
        ensures number { result ≡ self.now.add }
        ensures within { IsIndex self.now }
    {
        self.add
    }

    /// What the sum is divided by.
    pub fn div(&self) -> i32
        ensures number { result ≡ self.now.div }
        ensures within { IsIndex self.now }
    {
        self.div
    }

    /// The index at `v`, which lies within 32,768 of 0.
    #[inline]
    pub fn at(&self, v: i32) -> i32
        requires least { negsuc 32767 ≤ℤ v }
        requires most { v ≤ℤ pos 32768 }
        ensures value { result ≡ index_at self.now v }
        ensures least { negsuc 1048575 ≤ℤ result }
        ensures most { result ≤ℤ pos 1048576 }
        ensures within { IsIndex self.now }
    {
        divide_index_product(self.mul * v + self.add, self.div)
    }

    /// From the least to the greatest index at the numbers of `span`, which lies within 32,768 of 0.
    pub fn image(&self, span: &Span) -> Span
        requires least { negsuc 32767 ≤ℤ span.now.lo }
        requires most { span.now.hi ≤ℤ pos 32768 }
        ensures ends { result ≡ image_of self.now span.now }
        ensures image { IsImage self.now span.now result }
        ensures within { IsIndex self.now × IsSpan span.now × IsSpan result }
    {
        Span::from_ends(self.at(span.lo()), self.at(span.hi()))
    }
}
