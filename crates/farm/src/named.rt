//! Names of farms, for contracts alone.

use std::marker::Brand;

/// A type that names what a farm works at. It has no calls: who makes the workers requires that it is theirs.
pub trait NamedFarm {
    ghost use Rattle.farm.specs.WorkerLogs.{WorkedFarm};

    /// The farm.
    ghost farm: { WorkedFarm };
}

impl NamedFarm for Brand {
    ghost use Rattle.farm.specs.WorkerLogs.{no_farm};

    ghost farm = { no_farm };
}
