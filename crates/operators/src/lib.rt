//! The operators of expressions, by arity, with their values at operands; tests of points, and kernels. The crate has neither
//! stages nor the syntax of operators.
//!
//! Words: copy kernel, kernel factors, unary op, binary op.
#![tactic(auto)]

mod kernel;
mod operator;
mod point_test;

pub use kernel::{Kernel, KernelFactors, copy_kernel};
pub use operator::{BinaryOp, LiteralOp, ReductionOp, Relation, TernaryOp, UnaryOp};
pub use point_test::{Axis, PointTest};
