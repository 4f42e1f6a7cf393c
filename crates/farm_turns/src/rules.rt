//! What a worker uses in its turns.

use farm_setup::FarmSetup;
use identity::Key;

/// What a worker uses in all its turns.
#[derive(Clone, Copy, Debug)]
pub struct TurnRules<'a> {
    /// Its number among all workers.
    pub number: u8,
    /// The number of its node.
    pub home: u8,
    pub setup: FarmSetup,
    /// The work keys, in the order in which they are to be made.
    pub keys: &'a [Key],
}
