//! What lines request, before jobs are looked up.

ghost use Rattle.std.specs.Prelude.{◌≡◌};

use crate::event::Event;
use crate::places::{TileName, TileNames};
use std::alloc::AllocError;

/// What a line requests: an event that names its job or its tiles by numbers of jobs, or one that names neither.
#[derive(Debug, Drop)]
pub enum ScriptRequest {
    Make { node: u8, place: TileName },
    Retire { node: u8, job: u32 },
    Send { node: u8, to: u8, places: TileNames },
    Plain(Event),
}

/// Why a line requests nothing.
#[derive(Clone, Copy, Debug, PartialEq, Eq)]
pub enum ScriptRequestFault {
    NoRequest,
    Memory,
}

impl From<AllocError> for ScriptRequestFault {
    ghost use Rattle.std.specs.Prelude.{◌≡◌};
    ghost use Rattle.gossip_events.specs.declared.order.ScriptRequestFault.TheVariants.{Memory};

    ghost from_gives = { λ _ fault. fault ≡ Memory };

    fn from(_fault: AllocError) -> ScriptRequestFault {
        ScriptRequestFault::Memory
    }
}
