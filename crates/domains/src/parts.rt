ghost use Rattle.std.specs.Prelude.{◌≡◌, ◌≤◌, ◌<◌, ◌↔◌, ℕ, IsTrue, IfSome, IfNone};
ghost use Rattle.domains.specs.Span.{Ends, Holds, IsSpan};
ghost use Rattle.domains.specs.Tiles.{part_of, part_count, part_at, spans_meet, IsPlace};

use crate::span::Span;

// How many parts of `side` numbers a span has.
pub(crate) fn count_span_parts(span: &Span, side: u32) -> u32
    requires { 1 ≤ side }
    ensures number { result ≡ part_count span.now side }
    ensures some { 0 < result }
    ensures most { result ≤ 2097153 }
    ensures within { IsSpan span.now }
{
    span.len().div_ceil(side)
}

// Part `i` of a span; none where there are no more than `i` parts.
pub(crate) fn compute_nth_span_part(span: &Span, side: u32, i: u32) -> Option<Span>
    requires least { 1 ≤ side }
    requires most { side ≤ 4096 }
    ensures some { IfSome result (λ p. (i < part_count span.now side)
        × (p ≡ part_of span.now side i)) }
    ensures within { IfSome result IsSpan }
    ensures none { IfNone result (part_count span.now side ≤ i) }
{
    if i >= count_span_parts(span, side) {
        return None;
    }
    let lo = span.lo() + (i * side) as i32;
    let hi = lo + (side as i32 - 1);
    Some(Span::from_ends(lo, span.hi().min(hi)))
}

// The part in which `v`, a number of the span, lies.
fn compute_span_part_index(span: &Span, side: u32, v: i32) -> u32
    requires side { 1 ≤ side }
    requires holds { Holds span.now v }
    ensures at { result ≡ part_at span.now side v }
    ensures place { IsPlace span.now side v result }
    ensures few { result < 2097153 }
{
    (v - span.lo()) as u32 / side
}

// The part in which `v` lies; none outside the span.
pub(crate) fn find_span_part_index(span: &Span, side: u32, v: i32) -> Option<u32>
    requires { 1 ≤ side }
    ensures at { IfSome result (λ i. i ≡ part_at span.now side v) }
    ensures some { IfSome result (λ i. Holds span.now v × IsPlace span.now side v i) }
    ensures none { IfNone result (¬ (Holds span.now v)) }
{
    if span.holds(v) {
        Some(compute_span_part_index(span, side, v))
    } else {
        None
    }
}

// The first of the parts that have a number in common with `other`, and the one after the last of them.
pub(crate) fn find_range_of_meeting_span_parts(span: &Span, side: u32, other: &Span) -> (u32, u32)
    requires { 1 ≤ side }
    ensures parts { (k : ℕ) → k < part_count span.now side
        → IsTrue (spans_meet (part_of span.now side k) other.now)
        ↔ ((result.0 ≤ k) × (k < result.1)) }
    ensures within { result.1 ≤ part_count span.now side }
    ensures ordered { result.0 ≤ result.1 }
    ensures both { IsSpan span.now × IsSpan other.now }
{
    match span.meet(other) {
        Some(common) => (
            compute_span_part_index(span, side, common.lo()),
            compute_span_part_index(span, side, common.hi()) + 1,
        ),
        None => (0, 0),
    }
}
