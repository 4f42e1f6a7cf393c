#![tactic(auto)]
//! Quotients that are computed in 16 bits only as functions of their own: of sums of products of numbers and reads, by more than 128.
//! (`linear_rows` makes them in one pass or a few.) No clause speaks of them.

use crate::part_forms::is_part_step;
use job::{Formula, Kernel};
use operators::{BinaryOp, LiteralOp, TernaryOp, UnaryOp};

// The fewest products of a sum whose quotient becomes a stage, together with the stages that they read. (Fewer are computed as fast in 32
// bits, which what is read is brought to first.)
const LEAST_PRODUCTS: usize = 5;

// The most that samples of 8 bits are multiplied by in 16 bits.
const MOST_FACTOR: u32 = 128;

// The number that a formula is, but for its sign, if it is one of the text.
fn find_part_quotient_number(formula: &Formula) -> Option<u32> {
    match formula {
        Formula::Number(number) => Some(number.unsigned_abs()),
        Formula::Unary(UnaryOp::Neg, of) => match &**of {
            Formula::Number(number) => Some(number.unsigned_abs()),
            _ => None,
        },
        _ => None,
    }
}

// The products of a sum.
#[derive(Clone, Copy)]
struct PartProducts {
    // How many there are, and how often one reads another stage than the one before.
    count: usize,
    // The stage that the last one reads.
    stage: Option<usize>,
}

impl PartProducts {
    // These products, and one that reads a stage.
    fn with_part_product(self, stage: usize) -> PartProducts {
        let more = if self.stage == Some(stage) { 1 } else { 2 };
        PartProducts {
            count: self.count.saturating_add(more),
            stage: Some(stage),
        }
    }

    // These products, and those of a formula, if it is a sum of products of numbers and reads.
    fn with_part_products_of_sum(self, formula: &Formula) -> Option<PartProducts> {
        match formula {
            Formula::Number(_) => Some(self),
            Formula::Read(stage, _, column) if is_part_step(column) => {
                Some(self.with_part_product(*stage))
            }
            Formula::Unary(UnaryOp::Neg, of) => self.with_part_products_of_sum(of),
            Formula::Binary(BinaryOp::Add | BinaryOp::Sub, left, right) => {
                self.with_part_products_of_sum(left)?
                    .with_part_products_of_sum(right)
            }
            Formula::Binary(BinaryOp::Mul, left, right) => {
                if find_part_quotient_number(left).is_some() {
                    return self.with_part_products_of_sum(right);
                }
                find_part_quotient_number(right)?;
                self.with_part_products_of_sum(left)
            }
            _ => None,
        }
    }
}

// Whether a formula is a sum of some products.
fn is_sum_of_part_products(formula: &Formula) -> bool {
    let none = PartProducts {
        count: 0,
        stage: None,
    };
    match none.with_part_products_of_sum(formula) {
        Some(found) => found.count >= LEAST_PRODUCTS,
        None => false,
    }
}

// Whether an operator divides by more than 128.
fn is_great_part_divisor(op: LiteralOp, number: u32) -> bool {
    match op {
        LiteralOp::Div => 128 < number && number < 65536,
        LiteralOp::Shr => 7 < number && number < 32,
        LiteralOp::Rem | LiteralOp::Shl => false,
    }
}

/// Whether a formula is such a quotient, which numbers may bound, of a sum of some products.
pub(crate) fn is_part_quotient(formula: &Formula) -> bool {
    match formula {
        Formula::Literal(op, of, number) if is_great_part_divisor(*op, *number) => {
            is_sum_of_part_products(of)
        }
        Formula::Ternary(TernaryOp::Clamp, of, low, high) => {
            find_part_quotient_number(low).is_some()
                && find_part_quotient_number(high).is_some()
                && is_part_quotient(of)
        }
        Formula::Binary(BinaryOp::Min | BinaryOp::Max, left, right) => {
            if find_part_quotient_number(left).is_some() {
                return is_part_quotient(right);
            }
            find_part_quotient_number(right).is_some() && is_part_quotient(left)
        }
        _ => false,
    }
}

// What is left of the most that factors may be in 16 bits, behind a row of them.
fn find_rest_of_part_factors(factors: &[i32], most: u32) -> Option<u32> {
    let mut rest = most;
    for factor in factors {
        rest = rest.checked_sub(factor.unsigned_abs())?;
    }
    Some(rest)
}

// Whether the sums of a kernel may be added up in 16 bits.
fn is_light_part_kernel(kernel: &Kernel) -> bool {
    let mut most = MOST_FACTOR;
    for row in kernel.as_slice() {
        match find_rest_of_part_factors(row.as_slice(), most) {
            Some(rest) => most = rest,
            None => return false,
        }
    }
    true
}

// Whether the product of two formulas may be computed in 16 bits: one of them is a number.
fn is_light_part_product(left: &Formula, right: &Formula) -> bool {
    match (
        find_part_quotient_number(left),
        find_part_quotient_number(right),
    ) {
        (Some(number), _) | (None, Some(number)) => number <= MOST_FACTOR,
        (None, None) => false,
    }
}

/// Whether a formula may be computed in 16 bits where such quotients in it are reads.
pub(crate) fn is_light_beside_part_quotients(formula: &Formula) -> bool {
    if is_part_quotient(formula) {
        return true;
    }
    match formula {
        Formula::Number(_) | Formula::Coordinate(_) | Formula::Read(_, _, _) => true,
        Formula::Stencil(_, _, kernel) => is_light_part_kernel(kernel),
        Formula::Lookup(_, _) => false,
        Formula::Unary(_, of) => is_light_beside_part_quotients(of),
        Formula::Literal(op, of, number) => {
            !is_great_part_divisor(*op, *number) && is_light_beside_part_quotients(of)
        }
        Formula::Binary(op, left, right) => {
            (*op != BinaryOp::Mul || is_light_part_product(left, right))
                && is_light_beside_part_quotients(left)
                && is_light_beside_part_quotients(right)
        }
        Formula::Ternary(_, first, second, third) => {
            is_light_beside_part_quotients(first)
                && is_light_beside_part_quotients(second)
                && is_light_beside_part_quotients(third)
        }
        Formula::Select(left, _, right, then, otherwise) => {
            is_light_beside_part_quotients(left)
                && is_light_beside_part_quotients(right)
                && is_light_beside_part_quotients(then)
                && is_light_beside_part_quotients(otherwise)
        }
    }
}
