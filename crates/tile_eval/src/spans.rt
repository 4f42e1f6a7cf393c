#![tactic(auto)]
//! Numbers of spans by their places.

ghost use Rattle.std.specs.Prelude.{◌≡◌, ◌<◌, ◌+ℤ◌, pos};
ghost use Rattle.domains.specs.Span.{len_of};

use domains::Span;

/// The number at this place of a span, counted from 0.
#[tactic(auto, using(std::proofs::lemmas::Int::ints))]
pub fn find_span_number_at_position(span: &Span, place: u32) -> i32
    requires { place < len_of span.now }
    ensures { result ≡ span.now.lo +ℤ pos place }
{
    span.lo() + place as i32
}
