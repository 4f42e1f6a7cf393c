#![tactic(auto)]
//! The two identities of a job.

ghost use Rattle.std.specs.Prelude.{◌≡◌};
ghost use Rattle.identity.specs.Keys.{ids_in};

use crate::ids::{InputId, ProgramId};
use crate::key::Key;

/// The identities of a program and of its input: those of a job. They are in the order of their fields.
#[derive(Clone, Copy, Debug, PartialEq, Eq, PartialOrd, Ord, Hash)]
pub struct JobId {
    pub program: ProgramId,
    pub input: InputId,
}

impl JobId {
    /// The identities of the job whose tile the key names.
    pub fn from_key(key: &Key) -> JobId
        ensures { result ≡ ids_in key.now }
    {
        JobId {
            program: key.program,
            input: key.input,
        }
    }
}
