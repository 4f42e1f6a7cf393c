ghost use Rattle.std.specs.Prelude.{◌≡◌, ◌≤ℤ◌, ◌↔◌, ℤ, pos, negsuc, ◌<◌, ◌≤◌, length, IsTrue, IfSome, IfNone, OnSome};

use std::marker::Model;

/// The ends of a span lie from `-LIMIT` to `LIMIT`.
pub const LIMIT: i32 = 1_048_576;

/// The whole numbers from one end to the other, both included. A span is never empty.
#[derive(Clone, Copy, Debug, PartialEq, Eq)]
pub struct Span {
    lo: i32,
    hi: i32,
}

impl Model for Span {
    ghost use Rattle.domains.specs.Span.{Ends, IsSpan};

    ghost Value = { Ends };

    ghost view = { λ s. record { lo = s.lo; hi = s.hi } };

    ghost invariant = { λ s. IsSpan (record { lo = s.lo; hi = s.hi }) };

    ghost inverse = { λ e. record { lo = e.lo; hi = e.hi } };
}

impl Span {
    ghost use Rattle.domains.specs.Span.{Ends, Holds, IsSpan, IsSubspan, IsMeet, AreApart, IsHull, meet_of, hull_of, len_of, numbers_of};

    /// The span from `lo` to `hi`; none where `lo` is above `hi` or an end lies outside the limits.
    pub fn new(lo: i32, hi: i32) -> Option<Span>
        ensures some { IfSome result (λ s. s ≡ record { lo = lo; hi = hi }) }
        ensures within { IfSome result IsSpan }
        ensures none { IfNone result (¬ (IsSpan (record { lo = lo; hi = hi }))) }
    {
        if -LIMIT <= lo && lo <= hi && hi <= LIMIT {
            Some(Span { lo, hi })
        } else {
            None
        }
    }

    /// The span from `lo` to `hi`.
    pub(crate) fn from_ends(lo: i32, hi: i32) -> Span
        requires { IsSpan (record { lo = lo; hi = hi }) }
        ensures { result ≡ record { lo = lo; hi = hi } }
    {
        Span { lo, hi }
    }

    /// The least number.
    pub fn lo(&self) -> i32
        ensures end { result ≡ self.now.lo }
        ensures within { IsSpan self.now }
    {
        self.lo
    }

    /// The greatest number.
    pub fn hi(&self) -> i32
        ensures end { result ≡ self.now.hi }
        ensures within { IsSpan self.now }
    {
        self.hi
    }

    /// How many numbers there are.
    pub fn len(&self) -> u32
        ensures number { result ≡ len_of self.now }
        ensures count { result ≡ length (numbers_of self.now) }
        ensures some { 0 < result }
        ensures most { result ≤ 2097153 }
        ensures within { IsSpan self.now }
    {
        (self.hi - self.lo + 1) as u32
    }

    /// Whether `v` is one of the numbers.
    pub fn holds(&self, v: i32) -> bool
        ensures { IsTrue result ↔ Holds self.now v }
    {
        self.lo <= v && v <= self.hi
    }

    /// Whether each number is one of `other`'s.
    pub fn inside(&self, other: &Span) -> bool
        ensures { IsTrue result ↔ IsSubspan self.now other.now }
    {
        other.holds(self.lo()) && other.holds(self.hi())
    }

    /// The numbers that are in both; none where there are none.
    pub fn meet(&self, other: &Span) -> Option<Span>
        ensures ends { IfSome result (λ m. m ≡ meet_of self.now other.now) }
        ensures some { IfSome result (λ m. IsMeet self.now other.now m) }
        ensures within { IfSome result IsSpan }
        ensures both { IsSpan self.now × IsSpan other.now }
        ensures none { IfNone result (AreApart self.now other.now) }
    {
        Span::new(self.lo.max(other.lo), self.hi.min(other.hi))
    }

    /// The least span that holds both.
    pub fn hull(&self, other: &Span) -> Span
        ensures ends { result ≡ hull_of self.now other.now }
        ensures least { IsHull self.now other.now result }
        ensures within { IsSpan self.now × IsSpan other.now × IsSpan result }
    {
        Span {
            lo: self.lo.min(other.lo),
            hi: self.hi.max(other.hi),
        }
    }
}
