//! What the definitions amount to, proved once for the crates above. A law is a function that does nothing: its clauses are the
//! law.

ghost use Rattle.std.specs.Prelude.{◌≡◌, ◌<◌, ◌↔◌, ℕ, Bool, false, Some, None, List, [], length, slice_get, All, AllPairs, Contains};
ghost use Rattle.domains.specs.Area.{IsArea, IsSubarea, point_count};
ghost use Rattle.domains.specs.Tiles.{HasTile, tile_area};
ghost use Rattle.domains.specs.declared.area.Area.{Area};
ghost use Rattle.domains.specs.declared.grid.Grid.{Grid};
ghost use Rattle.job.specs.Pipeline.{Stage, Pipeline};
ghost use Rattle.job.specs.Readers.{grid_at};
ghost use Rattle.job.specs.Reads.{stage_read, reads_of, IsRanked};
ghost use Rattle.job.specs.WellFormed.{IsJob};
ghost use Rattle.grouping.specs.Chains.{ChainLeads, grouping_after};
ghost use Rattle.tile_boxes.specs.Costs.{scratch, points};
ghost use Rattle.tile_boxes.specs.Demands.{IsHullOfAll, hull_of_all};
ghost use Rattle.grouping.specs.Greedy.{group_stages_greedily, greedy_inlining, group};
ghost use Rattle.tile_boxes.specs.Order.{ComesBefore, order_stages_by_rank};
ghost use Rattle.tile_boxes.specs.Schedules.{all_stored, is_inlined};
ghost use Rattle.tile_boxes.specs.Targets.{Target, target_over, IsTarget, IsListed, HasWhatItReads, box_by, box, region, boxes};

/// The box of a stage is a bounding box, intersected with its domain. It bounds what the stages in the target demand of the
/// stage, each over its own region.
/// region.
pub fn boxes_of_schedules_bound_demands()
    ensures { (t : Target) (g : ℕ) → IsJob t.job → box t g ≡ box_by t (box t) g }
{}

/// Whatever a stage in a target reads at a point of its region lies in the box of what it reads.
pub fn boxes_of_schedules_hold_all_reads()
    ensures { (t : Target) → IsJob t.job → IsTarget t → HasWhatItReads t }
{}

/// Dependence order has each stage once, by ranks, and by numbers where ranks are equal.
pub fn schedule_order_has_each_stage()
    ensures all { (stages : List Stage) (g : ℕ) → Contains (order_stages_by_rank stages) g
        ↔ (g < length stages) }
    ensures order { (stages : List Stage) → AllPairs (ComesBefore stages) (order_stages_by_rank stages) }
    ensures reads { (stages : List Stage) (g : ℕ) (s : Stage) → IsRanked stages
        → slice_get stages g ≡ Some s
        → All (λ x. ComesBefore stages (stage_read x) g) (reads_of s.body) }
{}

/// A bounding box is the least area that contains each of those that it is made of; there is one if there are any.
pub fn bounding_boxes_in_schedules_are_least()
    ensures some { (areas : List Area) (h : Area) → All IsArea areas → hull_of_all areas ≡ Some h
        → IsHullOfAll areas h }
    ensures none { (areas : List Area) → hull_of_all areas ≡ None → areas ≡ [] }
{}

/// Each tile of a stage is a target.
pub fn tiles_in_schedules_are_targets()
    ensures { (job : Pipeline) (inlining : List Bool) (g i j : ℕ) (grid : Grid) → IsJob job
        → grid_at job g ≡ Some grid → HasTile grid i j
        → IsTarget (target_over job inlining g (tile_area grid i j)) }
{}

/// Boxes, and the regions of all stages in a target, are areas that lie in the domains. The listed stages are functions with
/// their boxes.
pub fn boxes_of_schedules_lie_in_domains()
    ensures boxes { (t : Target) (g : ℕ) (s : Stage) (a : Area) → IsJob t.job
        → slice_get t.job.stages g ≡ Some s → box t g ≡ Some a
        → IsArea a × IsSubarea a s.domain }
    ensures regions { (t : Target) (g : ℕ) (s : Stage) (a : Area) → IsJob t.job → IsTarget t
        → slice_get t.job.stages g ≡ Some s → region t g ≡ Some a
        → IsArea a × IsSubarea a s.domain }
    ensures listed { (t : Target) → IsJob t.job → All (IsListed t) (boxes t) }
{}

/// Where nothing is inlined a target takes no scratch memory, and its own points alone.
pub fn stored_schedules_take_no_scratch()
    ensures scratch { (t : Target) → t.inlining ≡ all_stored t.job → scratch t ≡ 0 }
    ensures points { (t : Target) → t.inlining ≡ all_stored t.job
        → points t ≡ point_count t.region }
{}

/// The greedy grouping has each stage in the group of a stored stage. From that stage a chain of reads leads to it through
/// inlined functions alone. Groups follow chains also while only some stages have been visited.
pub fn groups_follow_chains()
    ensures stored { (job : Pipeline) (percent x : ℕ) → IsJob job
        → is_inlined (greedy_inlining job percent) (group (group_stages_greedily job percent) x)
        ≡ false }
    ensures chains { (job : Pipeline) (percent t x : ℕ) → IsJob job
        → is_inlined (greedy_inlining job percent) t ≡ false
        → ChainLeads job (greedy_inlining job percent) t x
        ↔ (group (group_stages_greedily job percent) x ≡ t) }
    ensures on_the_way { (job : Pipeline) (percent k t x : ℕ) → IsJob job
        → is_inlined (grouping_after job percent k).inlining t ≡ false
        → ChainLeads job (grouping_after job percent k).inlining t x
        ↔ (group (grouping_after job percent k) x ≡ t) }
{}
