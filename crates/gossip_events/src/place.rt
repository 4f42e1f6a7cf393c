//! Words that name tiles.

ghost use Rattle.std.specs.Prelude.{◌≡◌, IfErr, IfNone, IfOk, IfSome, List, map};
ghost use Rattle.gossip_events.specs.Scripts.{NamePlace, SpellPlaces, SpellsPlace};
ghost use Rattle.gossip_events.specs.declared.order.ScriptRequestFault.TheVariants.{NoRequest};
ghost use Rattle.gossip_events.specs.declared.places.TileName.{TileName as PlaceType};

use crate::order::ScriptRequestFault;
use crate::places::{TileName, TileNames};
use crate::words::{
    parse_script_number, parse_script_stage_number, split_script_tile_name_at_colons,
};
use std::alloc::{AllocError, Global};

/// The tile that a word `JOB:STAGE:ROW:COL` names.
pub fn parse_script_tile_name(alloc: Global, word: &[u8]) -> Result<TileName, ScriptRequestFault>
    ensures some { IfOk result (SpellsPlace word.now) }
    ensures none { IfErr result (λ fault. fault ≡ NoRequest
        → (place : PlaceType) → ¬ SpellsPlace word.now place) }
{
    let parts = split_script_tile_name_at_colons(alloc, word)?;
    match parse_script_tile_name_parts(&parts) {
        Some(place) => Ok(place),
        None => Err(ScriptRequestFault::NoRequest),
    }
}

// The tile that four parts of a word name.
fn parse_script_tile_name_parts(parts: &[&[u8]]) -> Option<TileName>
    ensures some { IfSome result (NamePlace (map (λ p. p.now) parts.now)) }
    ensures none { IfNone result
        ((place : PlaceType) → ¬ NamePlace (map (λ p. p.now) parts.now) place) }
{
    let [job, of_stage, row, col] = parts else {
        return None;
    };
    Some(TileName {
        job: parse_script_number(job)?,
        stage: parse_script_stage_number(of_stage)?,
        row: parse_script_number(row)?,
        col: parse_script_number(col)?,
    })
}

/// The tiles that the words name, one each.
pub fn parse_script_tile_names(
    alloc: Global,
    words: &[&[u8]],
) -> Result<TileNames, ScriptRequestFault>
    ensures some { IfOk result (SpellPlaces (map (λ w. w.now) words.now)) }
    ensures none { IfErr result (λ fault. fault ≡ NoRequest
        → (places : List PlaceType) → ¬ SpellPlaces (map (λ w. w.now) words.now) places) }
{
    let mut items = Vec::new(alloc);
    for word in words {
        let place = parse_script_tile_name(alloc, word)?;
        items.push(place).map_err(AllocError::from)?;
    }
    Ok(TileNames::new(items))
}
