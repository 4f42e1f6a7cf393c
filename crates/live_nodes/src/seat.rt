//! Seats.

ghost use Rattle.std.specs.Prelude.{◌≡◌};

use std::alloc::Global;
use std::marker::Model;

/// A caller's place at a node, which counts the caller's recorded calls. Contracts alone see the count.
#[derive(Drop)]
pub struct Seat {
    // One unit for each call: they take no memory, and there is always capacity for one more.
    pub(crate) calls: Vec<()>,
}

impl Model for Seat {
    ghost use Rattle.std.specs.Prelude.{ℕ, length};

    ghost Value = { ℕ };

    ghost view = { λ seat. length seat.calls.items };
}

impl Seat {
    // A seat of no calls.
    pub(crate) fn new(alloc: Global) -> Seat
        ensures { result ≡ 0 }
    {
        Seat {
            calls: Vec::new(alloc),
        }
    }
}
