//! The operators of expressions, by arity. A walk over an expression has a case for each arity. What differs by operator is in
//! few places: its word, its value, its kernel along a row, and what can be done in the same pass as others.

/// An operator on one number.
#[derive(Clone, Copy, Debug, PartialEq, Eq)]
pub enum UnaryOp {
    /// `-a`
    Neg,
    /// `abs(a)`
    Abs,
}

/// An operator on two numbers.
#[derive(Clone, Copy, Debug, PartialEq, Eq)]
pub enum BinaryOp {
    /// `a + b`
    Add,
    /// `a - b`
    Sub,
    /// `a * b`
    Mul,
    /// `min(a, b)`
    Min,
    /// `max(a, b)`
    Max,
}

/// An operator on three numbers.
#[derive(Clone, Copy, Debug, PartialEq, Eq)]
pub enum TernaryOp {
    /// `clamp(a, LEAST, GREATEST)`, which is `min(max(a, LEAST), GREATEST)`
    Clamp,
}

/// An operator on a number and a literal.
#[derive(Clone, Copy, Debug, PartialEq, Eq)]
pub enum LiteralOp {
    /// `a / n`, rounded down
    Div,
    /// `a % n`
    Rem,
    /// `a << n`
    Shl,
    /// `a >> n`
    Shr,
}

/// A comparison of two numbers.
#[derive(Clone, Copy, Debug, PartialEq, Eq)]
pub enum Relation {
    /// `a <= b`
    AtMost,
    /// `a >= b`
    AtLeast,
    /// `a == b`
    Equals,
}

/// How an accumulator combines two numbers of one bin.
#[derive(Clone, Copy, Debug, PartialEq, Eq)]
pub enum ReductionOp {
    Sum,
    Min,
    Max,
}
