//! How the history of a desk grows.

use crate::entry::LeaseEntry;
use logbook::{Gain, Plain, Play, Rule};

/// The history is legal, and its length is in one word.
pub struct LeaseRule;

impl Rule<LeaseEntry, u64> for LeaseRule {
    ghost use Rattle.leases.specs.Logs.{IsKept};
    ghost use Rattle.std.specs.Prelude.{[]};
    ghost use base.Fml.{ftrue};

    ghost holds = { λ cells log. IsKept cells log };

    ghost first = { [] };

    ghost hinted = { λ n log. Unit {0} };

    ghost shows = { λ log. [] };

    ghost keeps = { λ names log. ftrue };

    ghost moves = { λ ask before after answer. Unit {0} };
}

/// Callers keep nothing beside the history.
pub struct NoGain;

impl Gain<LeaseEntry, u64> for NoGain {
    ghost use base.Fml.{ftrue};

    ghost after = { λ names about answer. ftrue };
}

/// A step that adds an entry.
pub struct EntryAdding;

impl Play<LeaseEntry, u64> for EntryAdding {
    ghost use Rattle.leases.specs.Logs.{Adds};

    ghost then = { Adds };
}

impl Plain<LeaseEntry, LeaseEntry, u64> for EntryAdding {
    ghost use Rattle.std.specs.Prelude.{None};

    ghost ask = { λ entry. entry };

    ghost state = { λ entry. None };
}
