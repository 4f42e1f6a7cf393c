#![tactic(auto)]
//! The ranks of the stages: a stage gets its rank once all stages that it reads have theirs.

ghost use Rattle.std.specs.Prelude.{◌≡◌, ℕ, ◌<◌, ◌+◌, Option, Some, None, IfSome, IfNone, IfOk, OnSome, length, slice_get, replicate, map};
ghost use Rattle.pipe_checks.specs.Graph.{links_at, IsRanking, IsAcyclic};
ghost use Rattle.pipe_checks.specs.inside.Search.{rank_over, known_rank, SomeUnranked, IsBounded};

use crate::graph::{StageLinks, get_graph_rank_or_distance};
use std::alloc::{AllocError, Global};

// The rank of a stage whose reads all have ranks.
fn find_graph_rank_above_reads(ranks: &[Option<usize>], links: &StageLinks) -> Option<usize>
    requires { (t r : ℕ) → slice_get ranks.now t ≡ Some (Some r) → r < usize.MAX }
    ensures rank { IfSome result (λ r. r ≡ rank_over (known_rank ranks.now) links.now) }
    ensures ranked { OnSome result (¬ (SomeUnranked ranks.now links.now.reads)) }
    ensures unranked { IfNone result (SomeUnranked ranks.now links.now.reads) }
{
    let mut greatest = 0;
    for stage in links.reads() {
        match get_graph_rank_or_distance(ranks, *stage) {
            Some(Some(rank)) => greatest = greatest.max(rank),
            Some(None) => return None,
            None => {}
        }
    }
    Some(if links.is_plane() { 0 } else { greatest + 1 })
}

// A stage without a rank that can have one, and its rank.
fn find_stage_with_next_graph_rank(
    graph: &[StageLinks],
    ranks: &[Option<usize>],
) -> Option<(usize, usize)>
    requires each { length ranks.now ≡ length graph.now }
    requires bounded { IsBounded ranks.now (length graph.now) }
    ensures unknown { IfSome result (λ f. slice_get ranks.now f.0 ≡ Some None) }
    ensures within { IfSome result (λ f. f.0 < length ranks.now) }
    ensures rank { IfSome result
        (λ f. f.1 ≡ rank_over (known_rank ranks.now) (links_at graph.now f.0)) }
    ensures ranked { IfSome result
        (λ f. ¬ (SomeUnranked ranks.now (links_at graph.now f.0).reads)) }
    ensures stuck { IfNone result ((s : ℕ) → slice_get ranks.now s ≡ Some None
        → SomeUnranked ranks.now (links_at graph.now s).reads) }
{
    for (stage, links) in graph.iter().enumerate() {
        if ranks[stage].is_none() {
            if let Some(rank) = find_graph_rank_above_reads(ranks, links) {
                return Some((stage, rank));
            }
        }
    }
    None
}

fn init_unknown_graph_ranks(alloc: Global, count: usize) -> Result<Vec<Option<usize>>, AllocError>
    ensures { IfOk result (λ v. v.items ≡ replicate count None) }
{
    let mut all = Vec::new(alloc);
    for _ in 0..count {
        all.push(None)?;
    }
    Ok(all)
}

fn unwrap_graph_ranks_if_all_known(
    alloc: Global,
    ranks: &[Option<usize>],
) -> Result<Option<Vec<usize>>, AllocError>
    ensures all { IfOk result (λ o. IfSome o (λ v. map Some v.items ≡ ranks.now)) }
    ensures none { IfOk result (λ o. IfNone o ((s : ℕ) × (slice_get ranks.now s ≡ Some None))) }
{
    let mut all = Vec::new(alloc);
    for rank in ranks {
        match rank {
            Some(rank) => all.push(*rank)?,
            None => return Ok(None),
        }
    }
    Ok(Some(all))
}

/// The rank of each stage. There is none where stages read each other in a cycle.
pub(crate) fn compute_read_graph_ranks(
    alloc: Global,
    graph: &[StageLinks],
) -> Result<Option<Vec<usize>>, AllocError>
    ensures some { IfOk result (λ o. IfSome o (λ v. IsRanking graph.now v.items)) }
    ensures none { IfOk result (λ o. IfNone o (¬ (IsAcyclic graph.now))) }
{
    let mut ranks = init_unknown_graph_ranks(alloc, graph.len())?;
    while let Some((stage, rank)) = find_stage_with_next_graph_rank(graph, &ranks) {
        ranks[stage] = Some(rank);
    }
    unwrap_graph_ranks_if_all_known(alloc, &ranks)
}
