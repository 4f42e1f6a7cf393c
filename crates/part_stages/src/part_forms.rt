#![tactic(auto)]
//! Numbers by which parts are found that are the same, but for where they read. No clause speaks of them.

use domains::Index;
use job::{Formula, Kernel};
use operators::{BinaryOp, LiteralOp, Relation, TernaryOp, UnaryOp};
use tables::TableEntries;

/// What a part is at the point of its first read.
#[derive(Clone, Copy)]
pub(crate) struct PartForm {
    /// One number for all parts that are the same but for where they read.
    pub code: u64,
    /// The stage of the first read, and how far away it is.
    pub place: Option<(usize, i32, i32)>,
    /// About how many passes of a row it takes.
    pub cost: usize,
    /// Whether all that it reads is read at a step.
    pub is_near: bool,
    /// Whether it may become a stage, where it is worth while.
    pub is_candidate: bool,
    /// How many parts it has, itself included.
    pub size: usize,
}

// One number of two.
fn mix_part_codes(first: u64, second: u64) -> u64 {
    let mixed = first
        .wrapping_mul(0x9E37_79B9_7F4A_7C15)
        .wrapping_add(second)
        .wrapping_mul(0xD6E8_FEB8_6659_FD93);
    mixed.wrapping_add(mixed >> 32)
}

// A number without a sign for each one with a sign.
fn find_part_code_of_number(number: i32) -> u64 {
    2 * u64::from(number.unsigned_abs()) + u64::from(number < 0)
}

// How far the second place is from the first.
fn find_part_code_of_distance(
    first: Option<(usize, i32, i32)>,
    second: Option<(usize, i32, i32)>,
) -> u64 {
    match (first, second) {
        (Some((_, row, column)), Some((_, other_row, other_column))) => mix_part_codes(
            find_part_code_of_number(other_row.wrapping_sub(row)),
            find_part_code_of_number(other_column.wrapping_sub(column)),
        ),
        _ => 1,
    }
}

impl PartForm {
    /// What has no parts.
    pub(crate) fn new(code: u64, cost: usize) -> PartForm {
        PartForm {
            code,
            place: None,
            cost,
            is_near: true,
            is_candidate: true,
            size: 1,
        }
    }

    /// The form with an operand more.
    pub(crate) fn with_operand(self, operand: PartForm) -> PartForm {
        let code = mix_part_codes(self.code, operand.code);
        PartForm {
            code: mix_part_codes(code, find_part_code_of_distance(self.place, operand.place)),
            place: self.place.or(operand.place),
            cost: self.cost.saturating_add(operand.cost),
            is_near: self.is_near && operand.is_near,
            is_candidate: true,
            size: self.size.saturating_add(operand.size),
        }
    }
}

/// Whether an index is a step.
pub(crate) fn is_part_step(index: &Index) -> bool {
    index.mul() == 1 && index.div() == 1
}

// The form of a read.
fn find_part_form_of_read(stage: usize, row: &Index, column: &Index) -> PartForm {
    let mut form = PartForm::new(mix_part_codes(2, stage as u64), 0);
    form.place = Some((stage, row.add(), column.add()));
    form.is_near = is_part_step(row) && is_part_step(column);
    form
}

// The form of a kernel, which reads at the point itself.
fn find_part_form_of_kernel(stage: usize, divisor: u32, kernel: &Kernel) -> PartForm {
    let mut code = mix_part_codes(mix_part_codes(3, stage as u64), u64::from(divisor));
    let mut cost = 1_usize;
    for row in kernel.as_slice() {
        code = mix_part_codes(code, 5);
        for factor in row.as_slice() {
            code = mix_part_codes(code, find_part_code_of_number(*factor));
            cost = cost.saturating_add(1);
        }
    }
    let mut form = PartForm::new(code, cost);
    form.place = Some((stage, 0, 0));
    form
}

/// The form of a formula without operands.
pub(crate) fn find_part_form_of_leaf(formula: &Formula) -> PartForm {
    match formula {
        Formula::Number(number) => {
            PartForm::new(mix_part_codes(1, find_part_code_of_number(*number)), 0)
        }
        Formula::Read(stage, row, column) => find_part_form_of_read(*stage, row, column),
        Formula::Stencil(stage, divisor, kernel) => {
            find_part_form_of_kernel(*stage, *divisor, kernel)
        }
        _ => {
            let mut form = PartForm::new(4, 0);
            form.is_near = false;
            form
        }
    }
}

/// The form of an operator on one number, before its operand.
pub(crate) fn find_part_form_of_unary(op: UnaryOp) -> PartForm {
    match op {
        UnaryOp::Neg => PartForm::new(10, 1),
        UnaryOp::Abs => PartForm::new(11, 1),
    }
}

/// The form of an operator on two numbers, before its operands.
pub(crate) fn find_part_form_of_binary(op: BinaryOp) -> PartForm {
    match op {
        BinaryOp::Add => PartForm::new(20, 1),
        BinaryOp::Sub => PartForm::new(21, 1),
        BinaryOp::Mul => PartForm::new(22, 1),
        BinaryOp::Min => PartForm::new(23, 1),
        BinaryOp::Max => PartForm::new(24, 1),
    }
}

/// The form of an operator on three numbers, before its operands.
pub(crate) fn find_part_form_of_ternary(op: TernaryOp) -> PartForm {
    match op {
        TernaryOp::Clamp => PartForm::new(30, 1),
    }
}

/// The form of an operator on a number and a literal, before its operand.
pub(crate) fn find_part_form_of_literal(op: LiteralOp, number: u32) -> PartForm {
    let literal = u64::from(number);
    match op {
        LiteralOp::Div => PartForm::new(mix_part_codes(40, literal), 3),
        LiteralOp::Rem => PartForm::new(mix_part_codes(41, literal), 3),
        LiteralOp::Shl => PartForm::new(mix_part_codes(42, literal), 1),
        LiteralOp::Shr => PartForm::new(mix_part_codes(43, literal), 1),
    }
}

/// The form of a table, before its index.
pub(crate) fn find_part_form_of_table(entries: &TableEntries) -> PartForm {
    let mut code = mix_part_codes(50, find_part_code_of_number(entries.span().lo()));
    for entry in entries.values() {
        code = mix_part_codes(code, find_part_code_of_number(*entry));
    }
    PartForm::new(code, 3)
}

/// The form of a choice by a comparison, before its operands.
pub(crate) fn find_part_form_of_relation(relation: Relation) -> PartForm {
    match relation {
        Relation::AtMost => PartForm::new(60, 2),
        Relation::AtLeast => PartForm::new(61, 2),
        Relation::Equals => PartForm::new(62, 2),
    }
}
