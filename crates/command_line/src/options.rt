//! How a command is run.

ghost use Rattle.std.specs.Prelude.{◌≡◌, ◌≤◌, ◌<◌, IfSome, IfNone};

use domains::TileSides;
use std::marker::Model;

/// The greatest percentage.
pub const MOST_PERCENT: u32 = 10_000;

/// A percentage from 0 to 10,000.
#[derive(Clone, Copy, Debug, PartialEq, Eq)]
pub struct PercentArgument {
    percent: u32,
}

impl Model for PercentArgument {
    ghost use Rattle.std.specs.Prelude.{ℕ, ◌≤◌};

    ghost Value = { ℕ };

    ghost view = { λ p. p.percent };

    ghost invariant = { λ p. p.percent ≤ 10000 };

    ghost inverse = { λ n. record { percent = n } };
}

impl PercentArgument {
    /// A percentage; none above 10,000.
    pub fn new(percent: u32) -> Option<PercentArgument>
        ensures some { IfSome result (λ p. p ≡ percent) }
        ensures within { IfSome result (λ p. p ≤ 10000) }
        ensures none { IfNone result (10000 < percent) }
    {
        if percent <= MOST_PERCENT {
            Some(PercentArgument { percent })
        } else {
            None
        }
    }

    /// How many percent.
    pub fn get(self) -> u32
        ensures value { result ≡ self }
        ensures most { result ≤ 10000 }
    {
        self.percent
    }
}

/// How a command is run.
#[derive(Clone, Copy, Debug, PartialEq, Eq)]
pub struct Options {
    /// The sides of the tiles into which stages are partitioned.
    pub sides: TileSides,
    /// How many percent more points may be computed where a function is inlined.
    pub percent: PercentArgument,
    /// Whether all functions are stored, and none is inlined.
    pub stored: bool,
}

impl Options {
    ghost use Rattle.std.specs.Prelude.{◌≡◌, false};

    /// Tiles of 64 rows and 64 columns, and functions inlined for at most 40 percent more points.
    pub fn with_defaults() -> Options
        ensures sides { result.sides ≡ record { height = 64; width = 64 } }
        ensures percent { result.percent ≡ 40 }
        ensures stored { result.stored ≡ false }
    {
        match (TileSides::new(64, 64), PercentArgument::new(40)) {
            (Some(sides), Some(percent)) => Options {
                sides,
                percent,
                stored: false,
            },
            _ => unreachable!(),
        }
    }
}
