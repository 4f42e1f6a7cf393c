//! Tests of points.

use crate::operator::Relation;

/// One of the two coordinates of a point.
#[derive(Clone, Copy, Debug, PartialEq, Eq)]
pub enum Axis {
    Row,
    Column,
}

/// A test of one coordinate.
#[derive(Clone, Copy, Debug)]
pub enum PointTest {
    /// The coordinate is compared with a number.
    Compare(Axis, Relation, i128),
    /// The coordinate has this remainder by a modulus: the modulus comes first.
    Remainder(Axis, u32, u32),
}
