//! Consequences of the definitions, proved once for dependent crates. A law is a function that does nothing: its clauses are the
//! law.

ghost use Rattle.std.specs.Prelude.{◌≡◌, ◌≤◌, ◌*◌, ◌^◌, ◌↔◌, ℕ, ℤ, pos, negsuc, ◌+ℤ◌, ◌*ℤ◌, ◌≤ℤ◌, ◌<ℤ◌, AllPairs, Contains};
ghost use Rattle.std.specs.Int.{w32, w64};
ghost use Rattle.domains.specs.Arithmetic.{IsWrapped, IsFloor, wrapped, wrapped_long, floor_div, floor_rem};
ghost use Rattle.domains.specs.Span.{Ends, IsSpan, IsSubspan, hull_of};
ghost use Rattle.domains.specs.Area.{HoldsPoint, AreDisjoint, IsArea, IsCommon, IsAreaHull, IsPointBefore, common_of, area_hull, points_of};
ghost use Rattle.domains.specs.Index.{Scale, IsIndex, IsImage, image_of, index_at};
ghost use Rattle.domains.specs.Tiles.{IsGrid, HasTile, IsTileOf, IsBefore, tile_area, tile_at, tiles_of, cover};
ghost use Rattle.domains.specs.declared.area.Area.{Area};
ghost use Rattle.domains.specs.declared.grid.Grid.{Grid};

/// To wrap a number is to take the one number of the type that differs from it by a multiple of 2^32, or of 2^64.
pub fn wrapping_gives_the_one_congruent_number()
    ensures at_32 { (n : ℤ) → IsWrapped w32 (pos (2 ^ 32)) n (wrapped n) }
    ensures only_at_32 { (n r : ℤ) → IsWrapped w32 (pos (2 ^ 32)) n r → r ≡ wrapped n }
    ensures at_64 { (n : ℤ) → IsWrapped w64 (pos (2 ^ 64)) n (wrapped_long n) }
    ensures only_at_64 { (n r : ℤ) → IsWrapped w64 (pos (2 ^ 64)) n r → r ≡ wrapped_long n }
{}

/// The quotient and the remainder are the one pair that makes up the number, with a remainder from 0 up to below the divisor.
pub fn floor_division_rounds_down()
    ensures splits { (a d : ℤ) → pos 0 <ℤ d → IsFloor a d (floor_div a d) (floor_rem a d) }
    ensures only { (a d q r : ℤ) → pos 0 <ℤ d → IsFloor a d q r
        → (q ≡ floor_div a d) × (r ≡ floor_rem a d) }
    ensures rises { (a b d : ℤ) → pos 0 <ℤ d → a ≤ℤ b → floor_div a d ≤ℤ floor_div b d }
{}

/// An index never falls. So images grow with spans, and the image of a bounding box is the bounding box of the images.
pub fn index_images_grow_with_spans()
    ensures rises { (x : Scale) (v w : ℤ) → IsIndex x → v ≤ℤ w → index_at x v ≤ℤ index_at x w }
    ensures grows { (x : Scale) (s t : Ends) → IsIndex x → IsSpan s → IsSubspan s t
        → IsSubspan (image_of x s) (image_of x t) }
    ensures is { (x : Scale) (s : Ends) → IsIndex x → IsSpan s → IsImage x s (image_of x s) }
    ensures fits { (x : Scale) (s : Ends) → IsIndex x → IsSpan s → negsuc 32767 ≤ℤ s.lo
        → s.hi ≤ℤ pos 32768 → IsSpan (image_of x s) }
    ensures hulls { (x : Scale) (s t : Ends) → IsIndex x
        → image_of x (hull_of s t) ≡ hull_of (image_of x s) (image_of x t) }
{}

/// The intersection and the bounding box of two areas are those of their rows and of their columns.
pub fn areas_meet_by_their_spans()
    ensures common { (a b : Area) → IsCommon a b (common_of a b) }
    ensures hull { (a b : Area) → IsArea a → IsArea b → IsAreaHull a b (area_hull a b) }
    ensures fits { (a b : Area) → IsArea a → IsArea b → IsArea (area_hull a b) }
{}

/// The list of an area's points has each point that it holds once, row by row.
pub fn area_points_are_listed_once()
    ensures all { (a : Area) (r c : ℤ) → IsArea a → Contains (points_of a) (r, c)
        ↔ HoldsPoint a r c }
    ensures order { (a : Area) → AllPairs IsPointBefore (points_of a) }
{}

/// The tiles partition the area: each point lies in exactly one, and no two have a point in common.
pub fn tiles_partition_the_area()
    ensures one { (g : Grid) (r c : ℤ) → IsGrid g → HoldsPoint g.area r c
        → IsTileOf g r c (tile_at g r c) }
    ensures within { (g : Grid) (i j : ℕ) (r c : ℤ) → HoldsPoint (tile_area g i j) r c
        → HoldsPoint g.area r c }
    ensures disjoint { (g : Grid) (i j k l : ℕ) → IsGrid g → ¬ ((i ≡ k) × (j ≡ l))
        → AreDisjoint (tile_area g i j) (tile_area g k l) }
    ensures areas { (g : Grid) (i j : ℕ) → IsGrid g → HasTile g i j → IsArea (tile_area g i j) }
{}

/// A tile is there exactly where its first point lies in the area; the list of the tiles has each that is there, row by row.
pub fn grid_tiles_are_listed_once()
    ensures begins { (g : Grid) (i j : ℕ) → IsGrid g → HasTile g i j
        ↔ HoldsPoint g.area (g.area.rows.lo +ℤ pos (i * g.sides.height))
        (g.area.cols.lo +ℤ pos (j * g.sides.width)) }
    ensures all { (g : Grid) (i j : ℕ) → Contains (tiles_of g) (i, j) ↔ HasTile g i j }
    ensures order { (g : Grid) → AllPairs IsBefore (tiles_of g) }
{}

/// The tiles of a cover hold each point that the grid's area has in common with the area that is covered.
pub fn grid_covers_hold_common_points()
    ensures { (g : Grid) (a : Area) (r c : ℤ) → IsGrid g → HoldsPoint g.area r c → HoldsPoint a r c
        → Contains (cover g a) (tile_at g r c) × IsTileOf g r c (tile_at g r c) }
{}
