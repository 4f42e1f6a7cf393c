ghost use Rattle.std.specs.Prelude.{◌≡◌, ℤ, ◌↔◌, ◌<◌, length, IsTrue, IfSome, IfNone};

use crate::span::Span;

/// The points whose row lies in `rows` and whose column lies in `cols`. An area is never empty.
#[derive(Clone, Copy, Debug, PartialEq, Eq)]
pub struct Area {
    pub rows: Span,
    pub cols: Span,
}

impl Area {
    ghost use Rattle.domains.specs.Area.{HoldsPoint, IsArea, IsSubarea, IsCommon};
    ghost use Rattle.domains.specs.Area.{AreDisjoint, IsAreaHull, common_of, area_hull, point_count, points_of};

    /// How many points there are.
    pub fn points(&self) -> u64
        ensures number { result ≡ point_count self.now }
        ensures count { result ≡ length (points_of self.now) }
        ensures some { 0 < result }
        ensures within { IsArea self.now }
    {
        u64::from(self.rows.len()) * u64::from(self.cols.len())
    }

    /// Whether the point of this row and this column is one of the points.
    pub fn holds(&self, row: i32, col: i32) -> bool
        ensures { IsTrue result ↔ HoldsPoint self.now row col }
    {
        self.rows.holds(row) && self.cols.holds(col)
    }

    /// Whether each point is one of `other`'s.
    pub fn inside(&self, other: &Area) -> bool
        ensures { IsTrue result ↔ IsSubarea self.now other.now }
    {
        other.holds(self.rows.lo(), self.cols.lo()) && other.holds(self.rows.hi(), self.cols.hi())
    }

    /// The points that are in both; none where there are none.
    pub fn meet(&self, other: &Area) -> Option<Area>
        ensures spans { IfSome result (λ m. m ≡ common_of self.now other.now) }
        ensures some { IfSome result (λ m. IsCommon self.now other.now m) }
        ensures within { IfSome result IsArea }
        ensures none { IfNone result (AreDisjoint self.now other.now) }
    {
        let rows = self.rows.meet(&other.rows)?;
        let cols = self.cols.meet(&other.cols)?;
        Some(Area { rows, cols })
    }

    /// The least area that holds both.
    pub fn hull(&self, other: &Area) -> Area
        ensures spans { result ≡ area_hull self.now other.now }
        ensures least { IsAreaHull self.now other.now result }
        ensures within { IsArea result }
    {
        Area {
            rows: self.rows.hull(&other.rows),
            cols: self.cols.hull(&other.cols),
        }
    }
}
