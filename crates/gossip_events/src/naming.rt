//! The events that are requested, with the keys of their tiles.

ghost use Rattle.std.specs.Prelude.{IfNone, IfOk, IfSome, List};
ghost use Rattle.gossip_events.specs.Scripts.{AreIdsAt, AreKeysOf, IsAsked, IsKeyOf};
ghost use Rattle.gossip_events.specs.declared.event.Event.{Event as EventType};
ghost use Rattle.identity.specs.declared.job_ids.JobId.{JobId as IdsType};
ghost use Rattle.identity.specs.declared.key.Key.{Key as KeyType};

use crate::event::{Event, Keys};
use crate::order::ScriptRequest;
use crate::places::TileName;
use catalog::{Catalog, compute_catalog_job_ids};
use identity::{JobId, Key};
use std::alloc::{AllocError, Global};

/// The event that is requested, if the catalog has its jobs.
///
/// # Errors
///
/// Fails only where memory is refused.
pub fn resolve_script_request_to_event(
    alloc: Global,
    jobs: &Catalog,
    order: ScriptRequest,
) -> Result<Option<Event>, AllocError>
    ensures some { IfOk result (λ found. IfSome found (IsAsked jobs.now order)) }
    ensures none { IfOk result (λ found. IfNone found
        ((event : EventType) → ¬ IsAsked jobs.now order event)) }
{
    match order {
        ScriptRequest::Make { node, place } => match resolve_script_tile_name_to_key(jobs, &place) {
            Some(key) => Ok(Some(Event::Make { node, key })),
            None => Ok(None),
        },
        ScriptRequest::Retire { node, job } => match find_job_id_of_script_job_number(jobs, job) {
            Some(ids) => Ok(Some(Event::Retire { node, ids })),
            None => Ok(None),
        },
        ScriptRequest::Send { node, to, places } => match resolve_script_tile_names_to_keys(
            alloc,
            jobs,
            places.as_slice(),
        )? {
            Some(keys) => Ok(Some(Event::Send { node, to, keys })),
            None => Ok(None),
        },
        ScriptRequest::Plain(event) => Ok(Some(event)),
    }
}

// The keys of the tiles, one each, if the catalog has their jobs.
fn resolve_script_tile_names_to_keys(
    alloc: Global,
    jobs: &Catalog,
    places: &[TileName],
) -> Result<Option<Keys>, AllocError>
    ensures some { IfOk result (λ found. IfSome found (AreKeysOf jobs.now places.now)) }
    ensures none { IfOk result (λ found. IfNone found
        ((keys : List KeyType) → ¬ AreKeysOf jobs.now places.now keys)) }
{
    let mut keys = Vec::new(alloc);
    for place in places {
        let Some(key) = resolve_script_tile_name_to_key(jobs, place) else {
            return Ok(None);
        };
        keys.push(key).map_err(AllocError::from)?;
    }
    Ok(Some(Keys::new(keys)))
}

// The key of the tile, if the catalog has its job.
fn resolve_script_tile_name_to_key(jobs: &Catalog, place: &TileName) -> Option<Key>
    ensures some { IfSome result (IsKeyOf jobs.now place.now) }
    ensures none { IfNone result ((key : KeyType) → ¬ IsKeyOf jobs.now place.now key) }
{
    let ids = find_job_id_of_script_job_number(jobs, place.job)?;
    Some(Key {
        program: ids.program,
        input: ids.input,
        stage: place.stage,
        row: place.row,
        col: place.col,
    })
}

// The identities of the catalog's job of this number.
fn find_job_id_of_script_job_number(jobs: &Catalog, job: u32) -> Option<JobId>
    ensures some { IfSome result (AreIdsAt jobs.now job) }
    ensures none { IfNone result ((ids : IdsType) → ¬ AreIdsAt jobs.now job ids) }
{
    let job = jobs.job(job as usize)?;
    Some(compute_catalog_job_ids(job))
}
